// The calls for C, which card.h beside the crate `card` declares: each is that crate's function of the same name, and promises the same.
#![tactic(auto)]

ghost use Rattle.std.specs.Prelude.{eqb, length, not};
ghost use Rattle.af_rules.specs.Calls.{check_call, wrap_call};
ghost use Rattle.card_rules.specs.Blocks.{CardFilled};
ghost use Rattle.card_rules.specs.Calls.{address_of};
ghost use Rattle.card_rules.specs.Endurance.{endure_for, endure_widths};
ghost use Rattle.card_rules.specs.Headers.{header_widths, parse_for};
ghost use Rattle.card_rules.specs.Items.{CardStepped, found_widths, repeats_of, walk_open_call};
ghost use Rattle.card_rules.specs.Packets.{check_widths};
ghost use Rattle.card_rules.specs.Receiving.{CardReceived, clear_for, places_widths, query_for};
ghost use Rattle.card_rules.specs.Sending.{settings_of, twos};
ghost use Rattle.card_rules.specs.Told.{CardTold, CardWritten, SentAs};
ghost use Rattle.code_rules.specs.Calls.{encode_call};
ghost use Rattle.cut_rules.specs.Plan.{plan_of};
ghost use Rattle.sender_rules.specs.Calls.{fragment_call, fragments_call};
ghost use Rattle.tag_rules.specs.Calls.{locate_call, locate_nth_call};
ghost use Rattle.write_rules.specs.Write.{write_call};

// Writes the AF packet of a payload at the front of out, with a CRC where cf is not 0, and gives 0; else the number of the refusal.
#[unsafe(no_mangle)]
pub extern "C" fn bailhammer_wrap(seq: u16, cf: usize, payload: &[u8], out: &mut [u8]) -> usize
    ensures { CardWritten (wrap_call seq (not (eqb cf 0)) payload.now out.old) out.new result }
{
    card::bailhammer_wrap(seq, cf, payload, out)
}

// Checks an AF packet, tells SEQ, CF, the minor revision and LEN, and gives 0; else the number of the refusal.
#[unsafe(no_mangle)]
pub extern "C" fn bailhammer_check(packet: &[u8], told: &mut [u8]) -> usize
    ensures { CardTold check_widths (check_call packet.now) told.old told.new result }
{
    card::bailhammer_check(packet, told)
}

// Writes a TAG item at the front of out, and gives 0; else the number of the refusal.
#[unsafe(no_mangle)]
pub extern "C" fn bailhammer_item(name: u32, bits: u32, value: &[u8], out: &mut [u8]) -> usize
    ensures { CardWritten (write_call name bits value.now out.old) out.new result }
{
    card::bailhammer_item(name, bits, value, out)
}

// Finds an item by its name in a packet, else in the standing packet beside it, tells where it is, and gives 0; else the number of the
// refusal.
#[unsafe(no_mangle)]
pub extern "C" fn bailhammer_find(
    packet: &[u8],
    standing: &[u8],
    name: u32,
    repeats: usize,
    told: &mut [u8],
) -> usize
    ensures { CardTold found_widths (locate_call (repeats_of repeats) packet.now standing.now name)
        told.old told.new result }
{
    card::bailhammer_find(packet, standing, name, repeats, told)
}

// Finds the occurrence of a name and number, counted from 0, in a packet alone, tells where it is, and gives 0; else the number of the
// refusal.
#[unsafe(no_mangle)]
pub extern "C" fn bailhammer_nth(
    packet: &[u8],
    name: u32,
    number: usize,
    repeats: usize,
    told: &mut [u8],
) -> usize
    ensures { CardTold found_widths (locate_nth_call (repeats_of repeats) packet.now name number) told.old
        told.new result }
{
    card::bailhammer_nth(packet, name, number, repeats, told)
}

// Opens a walk through a packet and the containers in it that have one of the names, and gives 0; else the number of the refusal.
#[unsafe(no_mangle)]
pub extern "C" fn bailhammer_walk_open(
    packet: &[u8],
    names: &[u8],
    repeats: usize,
    walker: &mut [u8],
) -> usize
    ensures { CardWritten (walk_open_call (repeats_of repeats) packet.now names.now walker.old)
        walker.new result }
{
    card::bailhammer_walk_open(packet, names, repeats, walker)
}

// Hands out the next item of a walk, and gives 0; else the number of the refusal.
#[unsafe(no_mangle)]
pub extern "C" fn bailhammer_walk_step(
    packet: &[u8],
    names: &[u8],
    walker: &mut [u8],
    told: &mut [u8],
) -> usize
    ensures { CardStepped packet.now names.now walker.old walker.new told.old
        told.new result }
{
    card::bailhammer_walk_step(packet, names, walker, told)
}

// Plans the cut of a packet of l bytes and tells its figures, and gives 0; else the number of the refusal.
#[unsafe(no_mangle)]
pub extern "C" fn bailhammer_plan(
    fec: usize,
    m: usize,
    newer: usize,
    mtu: usize,
    addressed: usize,
    l: usize,
    told: &mut [u8],
) -> usize
    ensures { CardTold (twos 10) (plan_of (settings_of fec m newer mtu addressed 0 0) l) told.old told.new result }
{
    card::bailhammer_plan(fec, m, newer, mtu, addressed, l, told)
}

// Writes one fragment of a packet at the front of out and tells its length, and gives 0; else the number of the refusal.
#[unsafe(no_mangle)]
pub extern "C" fn bailhammer_fragment(
    fec: usize,
    m: usize,
    newer: usize,
    mtu: usize,
    addressed: usize,
    source: u16,
    dest: u16,
    pseq: u16,
    packet: &[u8],
    index: usize,
    told: &mut [u8],
    out: &mut [u8],
) -> usize
    ensures { SentAs (twos 1) (fragment_call (settings_of fec m newer mtu addressed source dest) pseq packet.now index
        out.old) told.old told.new out.old out.new result }
{
    card::bailhammer_fragment(
        fec, m, newer, mtu, addressed, source, dest, pseq, packet, index, told, out,
    )
}

// Writes all fragments of a packet at the front of out and tells how out is split, and gives 0; else the number of the refusal.
#[unsafe(no_mangle)]
pub extern "C" fn bailhammer_fragments(
    fec: usize,
    m: usize,
    newer: usize,
    mtu: usize,
    addressed: usize,
    source: u16,
    dest: u16,
    pseq: u16,
    packet: &[u8],
    told: &mut [u8],
    out: &mut [u8],
) -> usize
    ensures { SentAs (twos 4) (fragments_call (settings_of fec m newer mtu addressed source dest) pseq packet.now out.old)
        told.old told.new out.old out.new result }
{
    card::bailhammer_fragments(
        fec, m, newer, mtu, addressed, source, dest, pseq, packet, told, out,
    )
}

// Tells how many lost fragments the cut of a packet of l bytes stands, how many it has, and a set that is one too many, and gives 0; else
// the number of the refusal.
#[unsafe(no_mangle)]
pub extern "C" fn bailhammer_endure(
    fec: usize,
    m: usize,
    newer: usize,
    mtu: usize,
    addressed: usize,
    l: usize,
    told: &mut [u8],
) -> usize
    ensures { CardTold endure_widths (endure_for (settings_of fec m newer mtu addressed 0 0) l) told.old told.new result }
{
    card::bailhammer_endure(fec, m, newer, mtu, addressed, l, told)
}

// Reads the header of a datagram, tells its fields and where the payload begins, and gives 0; else the number of the refusal.
#[unsafe(no_mangle)]
pub extern "C" fn bailhammer_parse(
    addressed: usize,
    source: u16,
    dest: u16,
    datagram: &[u8],
    told: &mut [u8],
) -> usize
    ensures { CardTold header_widths (parse_for (address_of addressed source dest) datagram.now) told.old
        told.new result }
{
    card::bailhammer_parse(addressed, source, dest, datagram, told)
}

// Receives a datagram with the record in its bytes, and gives the number of the answer.
#[unsafe(no_mangle)]
pub extern "C" fn bailhammer_receive(
    addressed: usize,
    source: u16,
    dest: u16,
    record_bytes: &mut [u8],
    lent: &mut [u8],
    datagram: &[u8],
    told: &mut [u8],
    out: &mut [u8],
) -> usize
    ensures { CardReceived (address_of addressed source dest) datagram.now
        (record { record_bytes = record_bytes.old; lent = lent.old; told = told.old; out = out.old })
        (record { record_bytes = record_bytes.new; lent = lent.new; told = told.new; out = out.new }) result }
{
    card::bailhammer_receive(
        addressed,
        source,
        dest,
        record_bytes,
        lent,
        datagram,
        told,
        out,
    )
}

// Shows the four places of the record in its bytes, and gives the number of the answer.
#[unsafe(no_mangle)]
pub extern "C" fn bailhammer_query(record_bytes: &[u8], lent: &[u8], told: &mut [u8]) -> usize
    ensures { CardTold places_widths (query_for record_bytes.now (length lent.now)) told.old told.new result }
{
    card::bailhammer_query(record_bytes, lent, told)
}

// Empties the four places: a fresh record in the bytes. Gives the number of the answer.
#[unsafe(no_mangle)]
pub extern "C" fn bailhammer_clear(record_bytes: &mut [u8], lent: &[u8]) -> usize
    ensures { CardWritten (clear_for record_bytes.old (length lent.now)) record_bytes.new result }
{
    card::bailhammer_clear(record_bytes, lent)
}

// Writes the block of a packet at the front of out, c chunks of k bytes with their parity, and gives 0; else the number of the refusal.
#[unsafe(no_mangle)]
pub extern "C" fn bailhammer_encode(packet: &[u8], k: usize, c: usize, out: &mut [u8]) -> usize
    ensures { CardWritten (encode_call packet.now k c out.old) out.new result }
{
    card::bailhammer_encode(packet, k, c, out)
}

// Fills in the missing cells of a block of f fragments of s bytes, of which those with a byte that is not 0 are kept, and gives 0; 256
// where no word of the code agrees, 257 where too few are kept, else the number of the refusal.
#[unsafe(no_mangle)]
pub extern "C" fn bailhammer_fill(
    kept: &[u8],
    f: usize,
    s: usize,
    k: usize,
    block: &mut [u8],
) -> usize
    ensures { CardFilled kept.now f s k block.old block.new result }
{
    card::bailhammer_fill(kept, f, s, k, block)
}
