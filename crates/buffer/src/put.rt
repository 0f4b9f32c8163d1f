// Bytes put into a lent buffer, one after the other.

ghost use Rattle.std.specs.Prelude.{[], ◌∷◌};

// A lent buffer and the place of the next byte. The caller sees to it that the buffer has room, for another number of bytes in each function, so
// that it is a clause and no invariant.
#[derive(Drop)]
pub struct Cursor<'a> {
    pub bytes: &'a mut [u8],
    pub at: usize,
}

impl<'a> Cursor<'a> {
    ghost use Rattle.buffer.specs.Put.{Put, Room};

    // One byte.
    pub fn put_byte(&mut self, byte: u8)
        requires { Room (byte ∷ []) self.old }
        ensures { Put (byte ∷ []) self.old self.new }
    {
        self.bytes[self.at] = byte;
        self.at += 1;
    }

    // Bytes, in their order.
    #[tactic(auto, using(crate::proofs::Laws::Put::copied))]
    pub fn put_bytes(&mut self, bytes: &[u8])
        requires { Room bytes.now self.old }
        ensures { Put bytes.now self.old self.new }
    {
        let end = self.at + bytes.len();
        let buffer = &mut *self.bytes;
        buffer[self.at..end].copy_from_slice(bytes);
        self.at = end;
    }
}
