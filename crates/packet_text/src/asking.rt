// What a line asks.
ghost use Rattle.std.specs.Prelude.{◌≡◌, ℕ, ◌*◌, ◌<◌, ◌≤◌, List, ◌++◌, length, MatchOption, ◌≢◌};
ghost use Rattle.std.specs.List.{All, Any};
ghost use Rattle.packet_text.specs.Hex.{hex_digit, hex_text};
ghost use Rattle.packet_text.specs.Lines.{Asked as AskedOf, Asks, asked_of};

use crate::line::{Asked, BodyKind, TallyKind};

// The kind by whose word a line begins, and the rest of the line.
fn kind<'a, K: Copy>(line: &'a [u8], kinds: &[(&[u8], K)]) -> Option<(K, &'a [u8])>
    ensures { MatchOption result
        (All (λ k. (rest : List ℕ) → line.now ≢ k.0.now ++ rest) kinds.now)
        (λ x. Any (λ k. (x.0 ≡ k.1) × (line.now ≡ k.0.now ++ x.1.now)) kinds.now) }
{
    for (word, kind) in kinds {
        if let Some(rest) = line.strip_prefix(*word) {
            return Some((*kind, rest));
        }
    }
    None
}

// The number for which a hex digit stands. (The library's own readers of hex digits take capitals too.)
fn hex_value(digit: u8) -> Option<u8>
    ensures { MatchOption result ((n : ℕ) → n < 16 → digit ≢ hex_digit n) (λ n. (n < 16) × (digit ≡ hex_digit n)) }
{
    match digit {
        b'0'..=b'9' => Some(digit - b'0'),
        b'a'..=b'f' => Some(digit - b'a' + 10),
        _ => None,
    }
}

// The bytes for which hex digits stand, written to the front of some room.
fn read_hex<'a>(digits: &[u8], room: &'a mut [u8]) -> Option<&'a [u8]>
    requires { length digits.now ≤ 2 * length room.old }
    ensures { MatchOption result
        ((bs : List ℕ) → All (λ b. b < 256) bs → digits.now ≢ hex_text bs)
        (λ bytes. (digits.now ≡ hex_text bytes.now) × All (λ b. b < 256) bytes.now) }
{
    let (pairs, odd) = digits.as_chunks::<2>();
    if !odd.is_empty() {
        return None;
    }
    for (at, [high, low]) in pairs.iter().enumerate() {
        room[at] = 16 * hex_value(*high)? + hex_value(*low)?;
    }
    Some(&room[..pairs.len()])
}

// The most bytes of a line that asks something.
const LONGEST_LINE: usize = 4096;

// What a line asks, if anything; its packet is written to the front of the room.
pub(crate) fn asked<'a>(line: &[u8], room: &'a mut [u8; 2048]) -> Option<Asked<'a>>
    ensures { MatchOption result ((a : AskedOf) → Asks line.now a → ⊥) (λ asked. Asks line.now (asked_of asked)) }
{
    if line.len() > LONGEST_LINE {
        return None;
    }
    let (tally, rest) = kind(
        line,
        &[(b"full ", TallyKind::Full), (b"listed ", TallyKind::Listed)],
    )?;
    let (body, digits) = kind(
        rest,
        &[(b"code ", BodyKind::Code), (b"note ", BodyKind::Note)],
    )?;
    let packet = read_hex(digits, room)?;
    Some(Asked {
        tally,
        body,
        packet,
    })
}
