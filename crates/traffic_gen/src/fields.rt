ghost use Rattle.std.specs.Prelude.{◌≡◌};
ghost use Rattle.traffic_gen.specs.Generated.{fields_of};

/// What IPv4 carries.
#[derive(Clone, Copy, Debug)]
pub(crate) enum Protocol {
    Tcp,
    Udp,
}

/// The fields in which packets differ.
#[derive(Clone, Copy, Debug)]
pub(crate) struct Fields {
    pub(crate) identification: u16,
    pub(crate) protocol: Protocol,
    /// The last byte of the source address, 10.0.0.x.
    pub(crate) source_host: u8,
    /// The last byte of the destination address, 198.51.100.x.
    pub(crate) destination_host: u8,
    pub(crate) source_port: u16,
}

/// The fields of the packet of this index, by its two words.
pub(crate) fn choose_fields(index: u64, first: u32, second: u32) -> Fields
    ensures { result ≡ fields_of index first second }
{
    let protocol = if first / 65_536 % 2 == 0 {
        Protocol::Tcp
    } else {
        Protocol::Udp
    };
    Fields {
        identification: (index % 65_536) as u16,
        protocol,
        source_host: (1 + first % 200) as u8,
        destination_host: (1 + second % 200) as u8,
        source_port: (1024 + first / 256 % 64) as u16,
    }
}
