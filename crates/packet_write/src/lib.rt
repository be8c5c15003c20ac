// Packing messages.
#![tactic(auto)]

ghost use Rattle.std.specs.Prelude.{◌≡◌, ◌+◌, ◌*◌, ◌≤◌, ◌∷◌, length, take, IfOk};
ghost use Rattle.std.specs.List.{flat_map};
ghost use Rattle.tally.specs.Counts.{counted_pairs, counted};
ghost use Rattle.body.specs.Bytes.{over};
ghost use Rattle.packet.specs.Messages.{meaning};
ghost use Rattle.packet.specs.Packing.{pair_bytes, packet_bytes};
ghost use Rattle.packet.specs.Reading.{reading};
ghost use Rattle.packet_write.specs.Writing.{packing, Puts, head_bytes};

use body::{Body, ShortBuffer};
use packet::{Head, Message, PackFault};
use tally::{CountedPairs, Pair};

mod writer;

use writer::Writer;

// The first thirteen bytes of a packet: up to the number of pairs.
fn head_bytes(kind: u8, head: Head, pairs: u16) -> [u8; 13]
    ensures { result ≡ head_bytes kind head pairs }
{
    let [name_high, name_low] = head.name.to_be_bytes();
    let [pairs_high, pairs_low] = pairs.to_be_bytes();
    [
        b'N',
        b'R',
        b'S',
        0,
        1,
        kind,
        head.station,
        head.sender,
        head.addressee,
        name_high,
        name_low,
        pairs_high,
        pairs_low,
    ]
}

// A pair with its count as four bytes.
fn pair_bytes(pair: Pair, count: u16) -> [u8; 4]
    ensures { result ≡ pair_bytes (pair, count) }
{
    let [high, low] = count.to_be_bytes();
    [pair.station, pair.handset, high, low]
}

// Writes the counted pairs.
fn put_pairs<T: CountedPairs>(writer: &mut Writer, tag: &T)
    requires { writer.old.place + 4 * counted (T.Tally.counts tag.now) ≤ length writer.old.out.now }
    ensures { Puts writer.old writer.new (flat_map pair_bytes (counted_pairs (T.Tally.counts tag.now))) }
{
    for (pair, count) in tag.pairs() {
        writer.put(&pair_bytes(pair, count));
    }
}

// Writes the body's length and the body.
fn put_body<B: Body>(writer: &mut Writer, body: &B) -> Result<(), ShortBuffer>
    requires { writer.old.place + 1 + length (B.bytes body.now) ≤ length writer.old.out.now }
    ensures answers { result ≡ Ok tt }
    ensures leaves { Puts writer.old writer.new (length (B.bytes body.now) ∷ B.bytes body.now) }
{
    let size = body.size();
    writer.put(&[size]);
    body.write(&mut writer.out[writer.place..])?;
    writer.place += size as usize;
    Ok(())
}

// Packs a message at the front of a buffer, and answers the packet's length. It is refused only where the buffer is too
// short, and then the buffer is as it was. What is packed reads back as the message.
pub fn pack<T: CountedPairs, B: Body>(
    message: &Message<T, B>,
    out: &mut [u8],
) -> Result<usize, PackFault>
    ensures answers { result ≡ packing (packet_bytes B.Body.kind (meaning T.Tally.counts B.Body.bytes message.now)) out.old }
    ensures leaves { out.new ≡ over (packet_bytes B.Body.kind (meaning T.Tally.counts B.Body.bytes message.now)) out.old }
    ensures reads_back { IfOk result (λ n. reading B.Body.kind B.Body.lawful T.Tally.fits (take n out.new) ≡ Ok (meaning T.Tally.counts B.Body.bytes message.now)) }
{
    let tag = message.tag();
    let body = message.body();
    let pairs = tag.counted();
    let length = 14 + 4 * pairs as usize + body.size() as usize;
    if out.len() < length {
        return Err(PackFault::ShortBuffer);
    }
    let mut writer = Writer { out, place: 0 };
    writer.put(&head_bytes(B::kind(), message.head(), pairs));
    put_pairs(&mut writer, tag);
    put_body(&mut writer, body)?;
    Ok(length)
}
