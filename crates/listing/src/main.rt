// Reads one AF packet from standard input, all of it, and writes its listing to standard output. The work is done by the library.
#![tactic(auto)]

ghost use Rattle.std.specs.Prelude.{◌≡◌, ◌≤◌, length, IfOk, OnOk};
ghost use Rattle.std.specs.Io.KnownBytes.{Appends};
ghost use Rattle.base_rules.specs.Bytes.{splice};
ghost use Rattle.lister_rules.specs.Listing.{listing_of, most_input, most_listing};

use std::io;
use std::io::{Read, Write};

// Reads into a buffer that has all the bytes on which a listing depends, until it is full or the input ends, and answers how many were read.
fn read_input<R: Read>(reader: &mut R, input: &mut [u8]) -> io::Result<usize>
    requires { most_input ≤ length input.old }
    ensures { IfOk result (λ n. n ≤ length input.new) }
{
    let mut n = 0;
    // A `while` and no range: each turn goes on by as many bytes as its read brought.
    while n < input.len() {
        let more = reader.read(&mut input[n..])?;
        if more == 0 {
            return Ok(n);
        }
        n += more;
    }
    Ok(n)
}

// The whole listing of a packet, at the front of a buffer that holds every one, and its length: nothing is refused.
fn list_whole(packet: &[u8], out: &mut [u8]) -> usize
    requires { most_listing ≤ length out.old }
    ensures { (result ≡ length (listing_of packet.now))
        × (out.new ≡ splice out.old 0 (listing_of packet.now)) }
{
    match lister::list(packet, out) {
        Ok(n) => n,
        Err(_) => 0,
    }
}

// Writes the listing of a packet, and nothing else.
fn write_listing<W: Write>(writer: &mut W, packet: &[u8]) -> io::Result<()>
    ensures { OnOk result (Appends (W.contents writer.old) (W.contents writer.new) (listing_of packet.now)) }
{
    let mut out = [0u8; lister::LISTING];
    let n = list_whole(packet, &mut out);
    writer.write_all(&out[..n])
}

fn main(rt: HostRuntime) -> io::Result<()> {
    let mut input = [0u8; lister::INPUT];
    let n = read_input(&mut rt.stdin(), &mut input)?;
    write_listing(&mut rt.stdout(), &input[..n])
}
