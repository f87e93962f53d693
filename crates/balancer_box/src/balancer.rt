ghost use Rattle.std.specs.Prelude.{◌≤◌, length};

use crate::BalancerSettings;
use nat_tables::Endpoint;

/// The box `balancer`: it spreads the clients of one virtual address and port over backends, as a load balancer does
/// that translates addresses (RFC 3022).
///
/// A new client is connected to the backend of least load, the first of equals, and stays there while its connection is
/// live. A client's packets go to its backend, and the backend's answers come from the virtual address and port. A
/// TCP packet with RST closes its connection. Where TCP connections are followed to their end, one that both sides
/// ended, or one reset, counts for no load any more, and is kept for a number of seconds of its own, in which its
/// client may open another.
///
/// Variable 0 counts drops by reason, variable 1 is the load of each backend, and the next `shards` variables are the
/// connection tables.
#[derive(Debug, Drop)]
pub struct BalancerBox {
    pub settings: BalancerSettings,
    pub ghost some: { 1 ≤ settings.shards },
    pub ghost few: { settings.shards ≤ 64 },
    pub ghost some_backends: { 1 ≤ length settings.backends },
    pub ghost few_backends: { length settings.backends ≤ 64 },
}

impl BalancerBox {
    ghost use Rattle.std.specs.Prelude.{◌≡◌, ◌≤◌, ◌<◌, length, IfSome};
    ghost use Rattle.balancer_box.specs.Balancer.{is_virtual, backend_at, table_of};
    ghost use Rattle.balancer_box.specs.Boxes.{box_with};

    /// The box with these settings.
    pub fn new(settings: BalancerSettings) -> Self
        requires some { 1 ≤ settings.shards }
        requires few { settings.shards ≤ 64 }
        requires some_backends { 1 ≤ length settings.backends }
        requires few_backends { length settings.backends ≤ 64 }
        ensures { result ≡ box_with settings }
    {
        BalancerBox { settings }
    }

    /// Whether this is the virtual address and port.
    pub(crate) fn is_virtual(&self, address: u32, port: u16) -> bool
        ensures { result ≡ is_virtual self.now.settings address port }
    {
        address == self.settings.address && port == self.settings.port
    }

    /// How many backends there are.
    pub(crate) fn backend_count(&self) -> u64
        ensures { result ≡ length self.now.settings.backends }
    {
        self.settings.backends.len() as u64
    }

    /// The number of the backend with this address and port.
    pub(crate) fn backend_at(&self, address: u32, port: u16) -> Option<usize>
        ensures value { result ≡ backend_at self.now.settings.backends address port }
        ensures within { IfSome result (λ number. number < length self.now.settings.backends) }
    {
        self.settings.backends.as_slice().iter().position(|backend| backend.address == address
            && backend.port == port)
    }

    /// The connection table of a client.
    pub(crate) fn table_of(&self, client: &Endpoint) -> u32
        ensures { result ≡ table_of self.now.settings client.now }
    {
        let sum = u64::from(client.protocol) + u64::from(client.address) + u64::from(client.port);
        2 + (sum % u64::from(self.settings.shards)) as u32
    }
}
