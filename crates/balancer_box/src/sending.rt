ghost use Rattle.std.specs.Prelude.{◌≡◌, IfOk, slice_get};
ghost use Rattle.packet_headers.specs.Rewriting.{CanRewrite};
ghost use Rattle.balancer_box.specs.Balancer.{begun, begun_flow, frame_to, frame_out, bytes_out};
ghost use Rattle.balancer_box.specs.Balancer.{of_client, of_answer, resets, nothing_noted};
ghost use Rattle.balancer_box.specs.Balancer.{tells_of, tells_by};

use crate::{Backend, BalancerBox, Class, Goes, Noted, Place, Tells};
use flow_boxes::{STRAY, reason_of};
use nat_tables::Endpoint;
use packet_headers::{Flow, NotFlow, set_dest, set_source};
use plain_text::{Bytes, NoMemory};
use std::alloc::Global;

/// The control bits of TCP (RFC 9293, section 3.1).
const FIN: u8 = 1;

const SYN: u8 = 2;

const RST: u8 = 4;

const ACK: u8 = 16;

impl Noted {
    /// Nothing is noted but the reason for which the packet is dropped.
    fn reason(reason: u64) -> Noted
        ensures { result ≡ nothing_noted reason }
    {
        Noted {
            class: Class::Client,
            client: Endpoint {
                protocol: 0,
                address: 0,
                port: 0,
            },
            resets: false,
            time: 0,
            backend: 0,
            spare: 0,
            reason,
            tells: Tells::Nothing,
        }
    }

    /// What is noted of a client's packet as it begins.
    fn of_client(tells: Tells, flow: &Flow) -> Noted
        ensures { result ≡ of_client tells flow.now }
    {
        Noted {
            class: Class::Client,
            client: Endpoint {
                protocol: flow.protocol,
                address: flow.source,
                port: flow.source_port,
            },
            resets: resets(flow),
            time: 0,
            backend: 0,
            spare: 0,
            reason: 0,
            tells,
        }
    }

    /// What is noted of an answer from a backend as it begins.
    fn of_answer(tells: Tells, flow: &Flow, backend: u16) -> Noted
        ensures { result ≡ of_answer tells flow.now backend }
    {
        Noted {
            class: Class::Answer,
            client: Endpoint {
                protocol: flow.protocol,
                address: flow.dest,
                port: flow.dest_port,
            },
            resets: resets(flow),
            time: 0,
            backend,
            spare: 0,
            reason: 0,
            tells,
        }
    }
}

/// Whether a packet of this flow resets its connection.
fn resets(flow: &Flow) -> bool
    ensures { result ≡ resets flow.now }
{
    flow.flags & RST != 0
}

/// What a segment with these control bits tells of its connection.
fn tells_of(flags: u8) -> Tells
    ensures { result ≡ tells_of flags }
{
    if flags & RST != 0 {
        Tells::Resets
    } else if flags & FIN != 0 {
        Tells::Finishes
    } else if flags & SYN != 0 && flags & ACK == 0 {
        Tells::Opens
    } else {
        Tells::Nothing
    }
}

impl BalancerBox {
    /// What a segment tells, where connections are followed.
    fn tells(&self, flow: &Flow) -> Tells
        ensures { result ≡ tells_by self.now.settings.closing flow.now.flags }
    {
        match self.settings.closing {
            Some(_) => tells_of(flow.flags),
            None => Tells::Nothing,
        }
    }

    /// Where a packet begins, by its view.
    pub(crate) fn begun(&self, seen: Result<Flow, NotFlow>) -> Goes
        ensures { result ≡ begun self.now.settings seen }
    {
        match seen {
            Ok(flow) => self.begun_flow(self.tells(&flow), &flow),
            Err(answer) => Goes::to(Place::CountsDrop, Noted::reason(reason_of(answer))),
        }
    }
    /// Where a flow begins: from its client, or from its backend; else it is dropped as stray.
    fn begun_flow(&self, tells: Tells, flow: &Flow) -> Goes
        ensures { result ≡ begun_flow self.now.settings tells flow.now }
    {
        if self.is_virtual(flow.dest, flow.dest_port) {
            return Goes::to(Place::HearsTime, Noted::of_client(tells, flow));
        }
        match self.backend_at(flow.source, flow.source_port) {
            Some(backend) => Goes::to(
                Place::HearsTime,
                Noted::of_answer(tells, flow, backend as u16),
            ),
            None => Goes::to(Place::CountsDrop, Noted::reason(STRAY)),
        }
    }

    /// The backend of a number.
    fn backend(&self, number: u16) -> Option<Backend>
        ensures { result ≡ slice_get self.now.settings.backends number }
    {
        self.settings
            .backends
            .as_slice()
            .get(usize::from(number))
            .copied()
    }

    /// Translates a flow's frame (RFC 3022, section 4.1): a client's frame goes to its backend, and an answer comes
    /// from the virtual address and port. The checksums are brought up to date (RFC 1071, RFC 1624).
    fn translate(&self, frame: &mut [u8], flow: &Flow, noted: &Noted)
        requires { CanRewrite frame.old flow.now }
        ensures { frame.new
            ≡ frame_out self.now.settings noted.now.class frame.old flow.now noted.now }
    {
        match noted.class {
            Class::Client => {
                if let Some(backend) = self.backend(noted.backend) {
                    set_dest(frame, flow, backend.address, backend.port);
                }
            }
            Class::Answer => set_source(frame, flow, self.settings.address, self.settings.port),
        }
    }

    /// A copy of a flow's frame, translated.
    fn translated(
        &self,
        alloc: Global,
        frame: &[u8],
        flow: &Flow,
        noted: &Noted,
    ) -> Result<Bytes, NoMemory>
        requires { CanRewrite frame.now flow.now }
        ensures { IfOk result (λ bytes. bytes
            ≡ frame_out self.now.settings noted.now.class frame.now flow.now noted.now) }
    {
        let mut copy = Vec::from_slice(alloc, frame)?;
        self.translate(&mut copy, flow, noted);
        Ok(Bytes::from_vec(copy))
    }

    /// The bytes that go out of a packet with these bytes, by its view.
    pub(crate) fn sent(
        &self,
        alloc: Global,
        frame: &[u8],
        seen: Result<Flow, NotFlow>,
        noted: &Noted,
    ) -> Result<Bytes, NoMemory>
        requires { IfOk seen (λ flow. CanRewrite frame.now flow) }
        ensures { IfOk result (λ bytes. bytes
            ≡ bytes_out self.now.settings frame.now noted.now seen) }
    {
        match seen {
            Ok(flow) => self.translated(alloc, frame, &flow, noted),
            Err(_) => Bytes::of(alloc, frame),
        }
    }
}
