// Payloads of at most 64 bytes, by value, and their way into a reply space.
#![tactic(auto)]

ghost use Rattle.std.specs.Prelude.{◌≡◌, length};
ghost use Rattle.payload.specs.Payload.{no_payload, payload_of, content, written};

// The first `len` bytes count; the bytes behind them are zero.
#[derive(Clone, Copy)]
pub struct Payload {
    pub len: u8,
    pub bytes: [u8; 64],
}

impl Payload {
    // The payload of no bytes.
    pub fn none() -> Payload
        ensures { result ≡ no_payload }
    {
        Payload {
            len: 0,
            bytes: [0; 64],
        }
    }

    // The bytes in a new array; of more than 64, the first 64.
    pub fn of(source: &[u8]) -> Payload
        ensures { result ≡ payload_of source.now }
    {
        let n = source.len().min(64);
        let mut bytes = [0u8; 64];
        bytes[..n].copy_from_slice(&source[..n]);
        Payload {
            len: n as u8,
            bytes,
        }
    }

    // How many bytes it stands for.
    pub fn size(self) -> u8
        ensures { result ≡ length (content self) }
    {
        self.len.min(64)
    }

    // The payload's bytes at the start of a reply space, as far as they fit; the rest of it is kept.
    pub fn give(self, reply: &mut [u8])
        ensures { reply.new ≡ written (content self) reply.old }
    {
        let n = (self.len as usize).min(64).min(reply.len());
        reply[..n].copy_from_slice(&self.bytes[..n]);
    }
}
