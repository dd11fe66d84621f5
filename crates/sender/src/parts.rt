// A packet that is sent: the parts of a fragment, its header and its payload, and where they are laid down. A `requires` leaves room for each.
ghost use Rattle.std.specs.Prelude.{◌≡◌, ◌≤◌, ◌<◌, length, take, IfOk, IfErr};
ghost use Rattle.base_rules.specs.Answer.{outcome};
ghost use Rattle.base_rules.specs.Bounds.{place};
ghost use Rattle.base_rules.specs.Bytes.{splice};
ghost use Rattle.base_rules.specs.Refusal.{number as told_as};
ghost use Rattle.cut_rules.specs.Sizes.{L};
ghost use Rattle.sender_rules.specs.Calls.{packet_fault, fragment_call, sent_number, fragments_call, all_number};
ghost use Rattle.sender_rules.specs.Fragments.{payload_for, header_for, fragment_for, fragments_for};
ghost use Rattle.sender_rules.specs.inner.Parts.{Figured, Laid};

use crate::Split;
use crate::ready::ready;
use base::{PLACE, Refusal};
use cut::{Figures, Settings};
use header::Header;

// A packet that is not refused: what it is cut at and by, and the number that its fragments carry.
#[derive(Clone, Copy)]
pub(crate) struct Sending<'a> {
    g: Settings,
    number: u16,
    packet: &'a [u8],
    p: Figures,
    ghost figured: { Figured g packet.now p },
}

impl<'a> Sending<'a> {
    // Of a packet, or 40, the AF checks, 41, the first that is due.
    pub(crate) fn of(g: Settings, number: u16, packet: &'a [u8]) -> Result<Sending<'a>, Refusal>
        ensures made { IfOk result (λ s. (s.g ≡ g) × (s.number ≡ number) × (s.packet.now ≡ packet.now)) }
        ensures due { IfErr result (λ e. (told_as e ≡ packet_fault g packet.now) × (0 < told_as e)) }
    {
        let p = ready(g, packet)?;
        Ok(Sending {
            g,
            number,
            packet,
            p,
        })
    }

    // The block at the front of `block`, which is laid once for all fragments; without FEC there is none.
    fn lay_block(&self, block: &mut [u8])
        requires { place ≤ length block.old }
        ensures { Laid self.now.g self.now.packet.now (take (L self.now.g (length self.now.packet.now)) block.new) }
    {
        if self.g.fec {
            let _ = code_encoder::encode(self.packet, self.p.k, self.p.c, block);
        }
    }

    // The payload bytes of fragment i.
    fn payload_length(&self, i: usize) -> usize
        requires { i < self.now.p.f }
        ensures { (result ≡ length (payload_for self.now.g self.now.packet.now i)) × (result ≤ place) }
    {
        if self.g.fec {
            return self.p.s;
        }
        self.p.s.min(self.packet.len() - i * self.p.s)
    }

    // Its header.
    fn header_of(&self, i: usize) -> Header
        requires { i < self.now.p.f }
        ensures { result ≡ header_for self.now.g self.now.number self.now.packet.now i }
    {
        Header {
            number: self.number,
            index: i as u32,
            count: self.p.f as u32,
            fec: self.g.fec,
            rsk: self.p.k as u8,
            rsz: self.p.z as u8,
            address: self.g.address,
            plen: self.payload_length(i) as u16,
        }
    }

    // Its payload, at the front of out: every f-th byte of the block, or without FEC a part of the packet.
    fn put_payload(&self, block: &[u8], i: usize, out: &mut [u8])
        requires { Laid self.now.g self.now.packet.now block.now × (i < self.now.p.f)
            × (length (payload_for self.now.g self.now.packet.now i) ≤ length out.old) }
        ensures { out.new ≡ splice out.old 0 (payload_for self.now.g self.now.packet.now i) }
    {
        if self.g.fec {
            let _ = weave::interleave(block, self.p.f, self.p.s, i, out);
            return;
        }
        let from = i * self.p.s;
        let end = from + self.payload_length(i);
        let _ = base::put(out, 0, &self.packet[from..end]);
    }

    // Fragment i at the front of out: its header, and its payload behind it.
    fn put_fragment(&self, block: &[u8], i: usize, out: &mut [u8])
        requires { Laid self.now.g self.now.packet.now block.now × (i < self.now.p.f)
            × (length (fragment_for self.now.g self.now.number self.now.packet.now i) ≤ length out.old) }
        ensures { out.new ≡ splice out.old 0 (fragment_for self.now.g self.now.number self.now.packet.now i) }
    {
        let _ = header::write_header(self.header_of(i), out);
        self.put_payload(block, i, &mut out[self.p.h..]);
    }

    // All fragments, one behind the other, at the front of out.
    fn put_fragments(&self, block: &[u8], out: &mut [u8])
        requires { Laid self.now.g self.now.packet.now block.now × (length (fragments_for self.now.g self.now.number self.now.packet.now) ≤ length out.old) }
        ensures { out.new ≡ splice out.old 0 (fragments_for self.now.g self.now.number self.now.packet.now) }
    {
        let count = self.p.f;
        let step = self.p.h + self.p.s;
        let mut at = 0;
        for i in 0..count {
            self.put_fragment(block, i, &mut out[at..]);
            at += step;
        }
    }

    // Writes one fragment at the front of out: 42, 1 where that cannot be, and then out stays as it is.
    pub(crate) fn write_one(&self, index: usize, out: &mut [u8]) -> Result<usize, Refusal>
        ensures { outcome (sent_number result) out.new ≡ fragment_call self.now.g self.now.number self.now.packet.now index out.old }
    {
        if self.p.f <= index {
            return Err(Refusal::Index);
        }
        let size = self.p.h + self.payload_length(index);
        if out.len() < size {
            return Err(Refusal::Room);
        }
        let mut block = [0u8; PLACE];
        self.lay_block(&mut block);
        self.put_fragment(&block[..self.p.total], index, out);
        Ok(size)
    }

    // Writes all fragments, one behind the other, at the front of out; the encoder is called once.
    pub(crate) fn write_all(&self, out: &mut [u8]) -> Result<Split, Refusal>
        ensures { outcome (all_number result) out.new ≡ fragments_call self.now.g self.now.number self.now.packet.now out.old }
    {
        let Figures { f, h, s, total, .. } = self.p;
        let full = f - 1;
        let last = self.payload_length(full);
        if out.len() < full * (h + s) + (h + last) {
            return Err(Refusal::Room);
        }
        let mut block = [0u8; PLACE];
        self.lay_block(&mut block);
        self.put_fragments(&block[..total], out);
        Ok(Split { f, h, s, last })
    }
}
