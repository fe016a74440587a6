// A packet, and its two headers.
ghost use Rattle.std.specs.Prelude.{◌≡◌, ◌≤◌, ◌%◌, ◌↔◌, IsTrue};
ghost use Rattle.packets.specs.declared.packet.PacketError.TheVariants.{Short};

mod derived;

use scroll::Error;

/// The header of a UDP datagram.
// #[derive(Pread, Pwrite)]
#[derive(Clone, Copy, Debug)]
pub struct UdpHeader {
    pub source: u16,
    pub destination: u16,
    /// The length of the datagram in bytes, with this header.
    pub len: u16,
    pub checksum: u16,
}

/// The header of a DNS message.
// #[derive(Pread, Pwrite)]
#[derive(Clone, Copy, Debug)]
pub struct DnsHeader {
    pub id: u16,
    /// From the highest bit: QR, the opcode in four bits, AA, TC, RD, RA, three zero bits, and the
    /// code of the response in four.
    pub flags: u16,
    pub questions: u16,
    pub answers: u16,
    pub authorities: u16,
    pub additionals: u16,
}

impl DnsHeader {
    /// Returns whether the message is a response: the flag QR.
    pub fn is_response(&self) -> bool
        ensures { IsTrue result ↔ (32768 ≤ self.now.flags) }
    {
        self.flags >= 0x8000
    }

    /// Returns the code of the response, RCODE: 0 for no error, 3 for a name that doesn't exist.
    pub fn response_code(&self) -> u16
        ensures { result ≡ self.now.flags % 16 }
    {
        self.flags % 16
    }
}

/// A datagram that carries a DNS message. Its numbers are in network order.
// #[derive(Pread, Pwrite)]
// #[scroll(error = PacketError::Short)]
#[derive(Clone, Copy, Debug)]
pub struct Packet<'a> {
    pub udp: UdpHeader,
    pub dns: DnsHeader,
    /// The message after its header: questions and records, as bytes.
    // #[scroll(ctx = udp.len as usize - 20, else = PacketError::NoMessage)]
    pub body: &'a [u8],
}

/// Why reading or writing a packet failed.
#[derive(Debug, Drop)]
pub enum PacketError {
    /// There are fewer bytes than the headers or the packet have, or the UDP length of a packet to be
    /// written isn't its size.
    Short(Error),
    /// The UDP length is below 20, that of the two headers.
    NoMessage(u16),
}

impl From<Error> for PacketError {
    ghost from_gives = { λ error e. e ≡ Short error };

    fn from(error: Error) -> PacketError {
        PacketError::Short(error)
    }
}
