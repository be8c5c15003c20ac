// What a message carries: a body, told as bytes.
#![tactic(auto)]

ghost use Rattle.std.specs.Prelude.{◌≡◌, ℕ, ◌≤◌, Bool, true, List, length};
ghost use Rattle.std.specs.Option.{option_map};
ghost use Rattle.body.specs.Bytes.{over, writing, told_back};

mod code;
mod codes;
mod note;
mod notes;

pub use code::CallCode;
pub use note::Note;

// The buffer is shorter than what is to be written.
#[derive(Clone, Copy, Debug, PartialEq, Eq)]
pub struct ShortBuffer;

// Writes some bytes over the front of a buffer, if it is long enough.
fn write_over(told: &[u8], out: &mut [u8]) -> Result<(), ShortBuffer>
    ensures answers { result ≡ writing told.now out.old }
    ensures leaves { out.new ≡ over told.now out.old }
{
    if out.len() < told.len() {
        return Err(ShortBuffer);
    }
    out[..told.len()].copy_from_slice(told);
    Ok(())
}

// A kind of body.
pub trait Body: Copy {
    // the number by which packets name the kind
    ghost kind: { ℕ };

    // the bytes that a body tells
    ghost bytes: { Self → List ℕ };

    // the bytes that the kind accepts
    ghost lawful: { List ℕ → Bool };

    // The kind's number, which is a byte of packets; what the product fixes as a number stays one.
    fn kind() -> u8
        ensures { result ≡ kind };

    // How many bytes the body tells.
    fn size(&self) -> u8
        ensures { result ≡ length (bytes self.now) };

    // Writes the body's bytes over the front of a buffer, if it is long enough.
    fn write(&self, out: &mut [u8]) -> Result<(), ShortBuffer>
        ensures answers { result ≡ writing (bytes self.now) out.old }
        ensures leaves { out.new ≡ over (bytes self.now) out.old };

    // The body that tells these bytes, or none where they are not lawful.
    fn read(told: &[u8]) -> Option<Self>
        ensures { option_map bytes result ≡ told_back (lawful told.now) told.now };

    // the number is from 1 to 255
    ghost ranged: { (1 ≤ kind) × (kind ≤ 255) };

    // a body tells at most 255 bytes
    ghost short: { (b : Self) → length (bytes b) ≤ 255 };

    // what a body tells is accepted
    ghost own: { (b : Self) → lawful (bytes b) ≡ true };

    // bodies that tell the same bytes are the same, so that a body reads back as itself
    ghost one: { (a b : Self) → bytes a ≡ bytes b → a ≡ b };
}
