ghost use Rattle.std.specs.Prelude.{◌≡◌, IfOk};
ghost use Rattle.packet_headers.specs.Rewriting.{CanRewrite};
ghost use Rattle.icmp_errors.specs.ErrorView.{IsErrorFrame};
ghost use Rattle.nat_box.specs.Nat.{begun, begun_as, frame_out, error_out, bytes_out};
ghost use Rattle.nat_box.specs.Nat.{noted_flow, nothing_noted, FitsSeen};
ghost use Rattle.nat_box.specs.Nat.{segment_of, segment_told};

use crate::place::NO_PORT;
use crate::seeing::flow_of_error;
use crate::{Class, Goes, NatBox, Noted, Place, Seen};
use flow_boxes::{STRAY, reason_of};
use icmp_errors::{IcmpError, set_quoted_dest, set_quoted_source};
use nat_tables::{Endpoint, PortKey, Segment};
use packet_headers::{Flow, set_dest, set_source};
use plain_text::{Bytes, NoMemory};
use std::alloc::Global;

/// The control bits that are read here (RFC 9293, section 3.1).
const FIN_OR_RST: u8 = 5;

const SYN: u8 = 2;

const ACK: u8 = 16;

/// What a segment with these control bits tells of its connection.
fn segment_of(flags: u8) -> Segment
    ensures { result ≡ segment_of flags }
{
    if flags & FIN_OR_RST != 0 {
        return Segment::Closes;
    }
    match (flags & SYN != 0, flags & ACK != 0) {
        (true, false) => Segment::Opens,
        (false, true) => Segment::Carries,
        (true, true) | (false, false) => Segment::Silent,
    }
}

impl Noted {
    /// Nothing is noted but the reason for which the packet is dropped.
    fn reason(reason: u64) -> Noted
        ensures { result ≡ nothing_noted reason }
    {
        let nowhere = Endpoint {
            protocol: 0,
            address: 0,
            port: 0,
        };
        Noted {
            class: Class::Outbound,
            source: nowhere,
            dest_port: 0,
            segment: Segment::Silent,
            time: 0,
            word_or_reason: reason,
            port: NO_PORT,
            freed: PortKey {
                protocol: 0,
                port: 0,
            },
            target: nowhere,
        }
    }

    /// What is noted of a flow as its packet begins. The endpoint of the remote is no part of a mapping's key.
    fn flow(flow: &Flow, class: Class, segment: Segment) -> Noted
        ensures { result ≡ noted_flow segment flow.now class }
    {
        Noted {
            class,
            source: Endpoint {
                protocol: flow.protocol,
                address: flow.source,
                port: flow.source_port,
            },
            dest_port: flow.dest_port,
            segment,
            time: 0,
            word_or_reason: 0,
            port: NO_PORT,
            freed: PortKey {
                protocol: 0,
                port: 0,
            },
            target: Endpoint {
                protocol: flow.protocol,
                address: 0,
                port: 0,
            },
        }
    }
}

impl NatBox {
    /// What a segment with these control bits tells: nothing where connections are not followed.
    fn segment_told(&self, flags: u8) -> Segment
        ensures { result ≡ segment_told self.now.settings.closing flags }
    {
        match self.settings.closing {
            Some(_) => segment_of(flags),
            None => Segment::Silent,
        }
    }

    /// Where a flow of this class begins, or one that is stray.
    fn begun_as(&self, flow: &Flow, class: Option<Class>) -> Goes
        ensures { result
            ≡ begun_as (segment_told self.now.settings.closing flow.now.flags) flow.now class }
    {
        match class {
            Some(class) => {
                let segment = self.segment_told(flow.flags);
                Goes::to(Place::HearsTime, Noted::flow(flow, class, segment))
            }
            None => Goes::to(Place::CountsDrop, Noted::reason(STRAY)),
        }
    }

    /// Where a packet begins, by what it is seen as.
    pub(crate) fn begun(&self, seen: Seen) -> Goes
        ensures { result ≡ begun self.now.settings seen }
    {
        match seen {
            Seen::OfFlow(flow) => self.begun_as(&flow, self.class_of(flow.source, flow.dest)),
            Seen::OfError(error) => {
                self.begun_as(&flow_of_error(&error), self.class_of_error(&error))
            }
            Seen::OfNeither(answer) => {
                Goes::to(Place::CountsDrop, Noted::reason(reason_of(answer)))
            }
        }
    }

    /// Translates a flow's frame (RFC 3022, section 4.1): an outbound frame comes from the outside address and its
    /// source's port, an inbound one goes to the inside endpoint, and in a hairpin both are set, the source first.
    pub(crate) fn translate(&self, frame: &mut [u8], flow: &Flow, noted: &Noted)
        requires { CanRewrite frame.old flow.now }
        ensures { frame.new
            ≡ frame_out self.now.settings noted.now.class frame.old flow.now noted.now }
    {
        let target = &noted.target;
        match noted.class {
            Class::Outbound => set_source(frame, flow, self.settings.outside, noted.port),
            Class::Inbound => set_dest(frame, flow, target.address, target.port),
            Class::Hairpin => {
                set_source(frame, flow, self.settings.outside, noted.port);
                set_dest(frame, flow, target.address, target.port);
            }
            Class::OutboundError => {}
        }
    }

    /// Translates an error of ICMP with the packet that it quotes: an inbound one goes to the endpoint from which that
    /// packet came (RFC 5508, REQ-4), an outbound one comes from the outside address, to which it went, and to its
    /// source's port (REQ-5).
    fn translate_error(&self, frame: &mut [u8], error: &IcmpError, noted: &Noted)
        requires { IsErrorFrame frame.old error.now }
        ensures { frame.new
            ≡ error_out self.now.settings noted.now.class frame.old error.now noted.now }
    {
        let target = &noted.target;
        match noted.class {
            Class::Inbound => set_quoted_source(frame, error, target.address, target.port),
            Class::OutboundError => set_quoted_dest(
                frame,
                error,
                self.settings.outside,
                noted.port,
            ),
            Class::Outbound | Class::Hairpin => {}
        }
    }

    /// A copy of a flow's frame, translated.
    fn translated(
        &self,
        alloc: Global,
        frame: &[u8],
        flow: &Flow,
        noted: &Noted,
    ) -> Result<Bytes, NoMemory>
        requires { CanRewrite frame.now flow.now }
        ensures { IfOk result (λ bytes. bytes
            ≡ frame_out self.now.settings noted.now.class frame.now flow.now noted.now) }
    {
        let mut copy = Vec::from_slice(alloc, frame)?;
        self.translate(&mut copy, flow, noted);
        Ok(Bytes::from_vec(copy))
    }

    /// A copy of an error's frame, translated.
    fn error_translated(
        &self,
        alloc: Global,
        frame: &[u8],
        error: &IcmpError,
        noted: &Noted,
    ) -> Result<Bytes, NoMemory>
        requires { IsErrorFrame frame.now error.now }
        ensures { IfOk result (λ bytes. bytes
            ≡ error_out self.now.settings noted.now.class frame.now error.now noted.now) }
    {
        let mut copy = Vec::from_slice(alloc, frame)?;
        self.translate_error(&mut copy, error, noted);
        Ok(Bytes::from_vec(copy))
    }

    /// The bytes that go out of a packet with these bytes, by what it is seen as.
    pub(crate) fn sent(
        &self,
        alloc: Global,
        frame: &[u8],
        seen: Seen,
        noted: &Noted,
    ) -> Result<Bytes, NoMemory>
        requires { FitsSeen frame.now seen }
        ensures { IfOk result (λ bytes. bytes
            ≡ bytes_out self.now.settings frame.now noted.now seen) }
    {
        match seen {
            Seen::OfFlow(flow) => self.translated(alloc, frame, &flow, noted),
            Seen::OfError(error) => self.error_translated(alloc, frame, &error, noted),
            Seen::OfNeither(_) => Bytes::of(alloc, frame),
        }
    }
}
