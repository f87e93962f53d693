ghost use Rattle.std.specs.Prelude.{◌≡◌, IfSome};
ghost use Rattle.icmp_errors.specs.ErrorView.{IsErrorFrame};
ghost use Rattle.nat_box.specs.Nat.{error_in, seen_as, flow_of_error, FitsSeen};
ghost use Rattle.packet_headers.specs.View.{viewed};

use crate::NatBox;
use icmp_errors::{IcmpError, view_error};
use packet_headers::{Flow, NotFlow, view};

/// What the frame of a packet is seen as.
#[derive(Clone, Copy, Debug)]
pub enum Seen {
    /// A flow of TCP or UDP.
    OfFlow(Flow),
    /// An error of ICMP about a packet of TCP or UDP, where the box lets them through.
    OfError(IcmpError),
    /// Neither, and why it is no flow.
    OfNeither(NotFlow),
}

/// An error of ICMP as a flow: from where the packet that it quotes went, to where it came from.
pub(crate) fn flow_of_error(error: &IcmpError) -> Flow
    ensures { result ≡ flow_of_error error.now }
{
    Flow {
        protocol: error.protocol,
        source: error.quoted_dest,
        source_port: error.quoted_dest_port,
        dest: error.quoted_source,
        dest_port: error.quoted_source_port,
        flags: 0,
        transport_at: error.transport_at,
    }
}

impl NatBox {
    /// The error of ICMP that a frame is, where errors go through.
    fn error_in(&self, frame: &[u8], original: u32) -> Option<IcmpError>
        ensures value { result ≡ error_in self.now.settings frame.now original }
        ensures rewritable { IfSome result (λ error. IsErrorFrame frame.now error) }
    {
        if self.settings.errors {
            view_error(frame, original)
        } else {
            None
        }
    }

    /// What a frame is seen as that had so many bytes on the wire.
    pub(crate) fn seen(&self, frame: &[u8], original: u32) -> Seen
        ensures value { result
            ≡ seen_as self.now.settings frame.now original (viewed frame.now original) }
        ensures rewritable { FitsSeen frame.now result }
    {
        match view(frame, original) {
            Ok(flow) => Seen::OfFlow(flow),
            Err(answer) => match self.error_in(frame, original) {
                Some(error) => Seen::OfError(error),
                None => Seen::OfNeither(answer),
            },
        }
    }
}
