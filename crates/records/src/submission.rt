//! A submission, and the 64 bytes that the kernel reads.
ghost use Rattle.std.specs.Prelude.{◌≡◌, Some};
ghost use Rattle.records.specs.Bytes.{laid_out, in_place, opcode_number, length_of_submission};
ghost use Rattle.records.specs.Words.{submission_text};

use std::fmt;

/// The operations that are asked for, with the kernel's numbers.
#[derive(Clone, Copy)]
pub enum Opcode {
    Writev = 2,
    Fsync = 3,
    Read = 22,
    Write = 23,
    Send = 26,
    Recv = 27,
}

impl From<Opcode> for u8 {
    ghost from_gives = { λ opcode number. number ≡ opcode_number opcode };

    fn from(opcode: Opcode) -> u8 {
        opcode as u8
    }
}

/// The length of a submission that is to move what is left: it has 32 bits.
pub fn submission_length(left: u64) -> u32
    ensures { result ≡ length_of_submission left }
{
    left.min(4294967295) as u32
}

/// What the kernel is asked to do next. Neither copied nor let go: the call that writes its bytes spends it.
pub struct Submission {
    /// A number, and no `Opcode`: the bytes of any are laid out and told apart.
    pub opcode: u8,
    pub descriptor: u32,
    pub offset: u64,
    pub place: u64,
    pub length: u32,
    pub flags: u32,
    pub token: u64,
}

// Each field's bytes in their places.
#[rattlefmt::skip]
fn lay(opcode: u8, d: [u8; 4], o: [u8; 8], p: [u8; 8], l: [u8; 4], f: [u8; 4], t: [u8; 8]) -> [u8; 64]
    ensures { result ≡ in_place opcode d o p l f t }
{
    [
        opcode, 0, 0, 0, d[0], d[1], d[2], d[3],
        o[0], o[1], o[2], o[3], o[4], o[5], o[6], o[7],
        p[0], p[1], p[2], p[3], p[4], p[5], p[6], p[7],
        l[0], l[1], l[2], l[3], f[0], f[1], f[2], f[3],
        t[0], t[1], t[2], t[3], t[4], t[5], t[6], t[7],
        0, 0, 0, 0, 0, 0, 0, 0,
        0, 0, 0, 0, 0, 0, 0, 0,
        0, 0, 0, 0, 0, 0, 0, 0,
    ]
}

impl Submission {
    /// Writes the submission into its place in the queue.
    pub fn write(self, out: &mut [u8; 64])
        ensures { out.new ≡ laid_out self }
    {
        let Submission {
            opcode,
            descriptor,
            offset,
            place,
            length,
            flags,
            token,
        } = self;
        let d = descriptor.to_le_bytes();
        let o = offset.to_le_bytes();
        let p = place.to_le_bytes();
        let l = length.to_le_bytes();
        let f = flags.to_le_bytes();
        let t = token.to_le_bytes();
        *out = lay(opcode, d, o, p, l, f, t);
    }
}

impl fmt::Display for Submission {
    ghost output = { λ submission. Some (submission_text submission) };

    fn fmt<W: fmt::Write>(&self, f: &mut fmt::Formatter<W>) -> fmt::Result {
        write!(f, "opcode {} descriptor {} ", self.opcode, self.descriptor)?;
        write!(f, "offset {} place {} ", self.offset, self.place)?;
        write!(
            f,
            "length {} flags {} token {}",
            self.length, self.flags, self.token
        )
    }
}
