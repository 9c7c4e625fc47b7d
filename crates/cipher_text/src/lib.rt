// A cipher over a text: the rest of a begun unit, whole units several to a turn, and the tail.
// The caller must ensure that the place in the unit is one of its bytes and that the text fits the buffer.
#![tactic(auto)]

ghost use Rattle.std.specs.Prelude.{◌≡◌, ◌+◌, ◌*◌, ◌%◌, ◌≤◌, ◌<◌, length};
ghost use Rattle.keystream.specs.Stream.{TextCrypted, PartCrypted};

use keystream::Generator;

// used bytes of a unit from its byte from on, which is not past its last; the state steps where the unit is used up, and nothing is done where none is used.
fn part<G: Generator>(st: G, from: usize, used: usize, text: &[u8], out: &mut [u8]) -> G
    requires from_bound { (from < G.UNIT) × (from + used ≤ G.UNIT) }
    requires used_in_bounds { (used ≤ length text.now) × (used ≤ length out.old) }
    ensures { PartCrypted G.generator from st used text.now out.old result out.new }
{
    if used == 0 {
        return st;
    }
    st.put_part(from, used, text, out);
    if G::UNIT == from + used {
        st.step()
    } else {
        st
    }
}

// The first count bytes of text, whole units, from the start of a unit on.
fn units<G: Generator>(st: G, count: usize, text: &[u8], out: &mut [u8]) -> G
    requires whole { count % G.UNIT ≡ 0 }
    requires count_in_bounds { (count ≤ length text.now) × (count ≤ length out.old) }
    ensures { PartCrypted G.generator 0 st count text.now out.old result out.new }
{
    let mut cur = st;
    for i in 0..count / G::UNIT {
        let at = i * G::UNIT;
        cur = cur.put_unit(&text[at..], &mut out[at..]);
    }
    cur
}

// A text from the start of a unit on, a unit to a turn, and the part of one that is left.
#[inline(always)]
fn ones<G: Generator>(st: G, text: &[u8], out: &mut [u8]) -> G
    requires { length text.now ≤ length out.old }
    ensures { PartCrypted G.generator 0 st (length text.now) text.now out.old result out.new }
{
    let left = text.len() % G::UNIT;
    let at = text.len() - left;
    let cur = units(st, at, text, out);
    part(cur, 0, left, &text[at..], &mut out[at..])
}

// Two units. Units that are written out let the compiler keep a register that moves in place.
#[inline(always)]
fn two<G: Generator>(st: G, text: &[u8], out: &mut [u8]) -> G
    requires { (2 * G.UNIT ≤ length text.now) × (2 * G.UNIT ≤ length out.old) }
    ensures { PartCrypted G.generator 0 st (2 * G.UNIT) text.now out.old result out.new }
{
    let at = G::UNIT;
    let next = st.put_unit(text, out);
    next.put_unit(&text[at..], &mut out[at..])
}

// Four units.
#[inline(always)]
fn four<G: Generator>(st: G, text: &[u8], out: &mut [u8]) -> G
    requires { (4 * G.UNIT ≤ length text.now) × (4 * G.UNIT ≤ length out.old) }
    ensures { PartCrypted G.generator 0 st (4 * G.UNIT) text.now out.old result out.new }
{
    let at = 2 * G::UNIT;
    let next = two(st, text, out);
    two(next, &text[at..], &mut out[at..])
}

// Eight units.
#[inline(always)]
fn eight<G: Generator>(st: G, text: &[u8], out: &mut [u8]) -> G
    requires { (8 * G.UNIT ≤ length text.now) × (8 * G.UNIT ≤ length out.old) }
    ensures { PartCrypted G.generator 0 st (8 * G.UNIT) text.now out.old result out.new }
{
    let at = 4 * G::UNIT;
    let next = four(st, text, out);
    four(next, &text[at..], &mut out[at..])
}

// The units of a turn, each written out.
#[inline(always)]
fn turn<G: Generator>(st: G, text: &[u8], out: &mut [u8]) -> G
    requires { (G.TURN ≤ length text.now) × (G.TURN ≤ length out.old) }
    ensures { PartCrypted G.generator 0 st G.TURN text.now out.old result out.new }
{
    if G::TURN / G::UNIT == 8 {
        eight(st, text, out)
    } else {
        two(st, text, out)
    }
}

// A text from the start of a unit on, a turn's units at a time.
fn turns<G: Generator>(st: G, text: &[u8], out: &mut [u8]) -> G
    requires { length text.now ≤ length out.old }
    ensures { PartCrypted G.generator 0 st (length text.now) text.now out.old result out.new }
{
    let count = text.len() / G::TURN;
    let mut cur = st;
    for i in 0..count {
        let at = i * G::TURN;
        cur = turn(cur, &text[at..], &mut out[at..]);
    }
    let at = count * G::TURN;
    ones(cur, &text[at..], &mut out[at..])
}

// The text goes to the start of out, XORed with the keystream from byte skip of the unit of st on; the state that comes back is that of the unit in
// which the next byte lies.
pub fn crypt<G: Generator>(st: G, skip: usize, text: &[u8], out: &mut [u8]) -> G
    requires { (skip < G.UNIT) × (length text.now ≤ length out.old) }
    ensures { TextCrypted G.generator skip st text.now out.old result out.new }
{
    let head = ((G::UNIT - skip) % G::UNIT).min(text.len());
    let cur = part(st, skip, head, text, out);
    turns(cur, &text[head..], &mut out[head..])
}
