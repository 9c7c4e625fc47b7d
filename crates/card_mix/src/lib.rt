// A conference on the buffer of its answer: in each member's place the clamped sum of the others' samples, worked out in place.
// The caller must ensure that the buffer has the members' parts, one behind the other.
#![tactic(auto)]

ghost use Rattle.std.specs.Prelude.{◌≡◌, ◌++◌, ◌+◌, ◌-◌, ◌*◌, ◌<◌, ◌≤◌, length, drop};
ghost use Rattle.card_mix.specs.Parts.{mixes_of};
ghost use Rattle.card_mix.specs.Columns.{raised_at, clamped_sum, stored, total_at, shared_out, column_of};

// The sample at byte at, 32,768 higher.
fn sample(s: &[u8], at: usize) -> u16
    requires { at + 2 ≤ length s.now }
    ensures { result ≡ raised_at s.now at }
{
    u16::from_be_bytes([s[at], s[at + 1]]).wrapping_add(32768)
}

// A sum of so many samples, each 32,768 higher, clamped, in its 16 bits.
fn clamp(sum: u32, count: u32) -> u16
    requires { (sum < 262144) × (count ≤ 4) }
    ensures { result ≡ clamped_sum sum count }
{
    let x = (sum + 32768).saturating_sub(32768 * count);
    (x.min(65535) as u16).wrapping_add(32768)
}

// The 16 bits of x go to byte at.
fn put_sample(x: u16, s: &mut [u8], at: usize)
    requires { at + 2 ≤ length s.old }
    ensures { s.new ≡ stored s.old at x }
{
    let b = x.to_be_bytes();
    s[at] = b[0];
    s[at + 1] = b[1];
}

// One sample of all members: at byte at of each of their parts, of size bytes.
#[derive(Clone, Copy)]
struct Column {
    members: usize,
    size: usize,
    at: usize,
    ghost few: { (1 ≤ members) × (members ≤ 4) },
    ghost within: { at + 2 ≤ size },
}

impl Column {
    // The samples of all members, in all.
    fn total(self, s: &[u8]) -> u32
        requires { self.members * self.size ≤ length s.now }
        ensures { (result ≡ total_at self.members self.size self.at s.now) × (result < 262144) }
    {
        let mut sum: u32 = 0;
        for k in 0..self.members {
            let from = k * self.size + self.at;
            sum += sample(s, from) as u32;
        }
        sum
    }

    // In each member's place the total without its own sample, clamped.
    fn share_out(self, sum: u32, s: &mut [u8])
        requires room { self.members * self.size ≤ length s.old }
        requires total { sum ≡ total_at self.members self.size self.at s.old }
        ensures { s.new ≡ shared_out self.members self.size self.at sum (self.members - 1) s.old }
    {
        let others = (self.members - 1) as u32;
        for k in 0..self.members {
            let from = k * self.size + self.at;
            let own = sample(s, from) as u32;
            let x = clamp(sum - own, others);
            put_sample(x, s, from);
        }
    }

    // In each member's place the clamped sum of the others.
    fn mix(self, s: &mut [u8])
        requires { self.members * self.size ≤ length s.old }
        ensures { s.new ≡ column_of self.members self.size self.at s.old }
    {
        self.share_out(self.total(s), s);
    }
}

// In each member's place the clamped sums of the others.
fn mix_of(members: usize, samples: usize, s: &mut [u8])
    requires { (1 ≤ members) × ((members ≤ 4) × (members * (2 * samples) ≤ length s.old)) }
    ensures { s.new ≡ mixes_of members (2 * samples) s.old ++ drop (members * (2 * samples)) s.old }
{
    let size = 2 * samples;
    for j in 0..samples {
        let column = Column {
            members,
            size,
            at: 2 * j,
        };
        column.mix(s);
    }
}

// The same, of two to four members; each number of members is a call of its own, so that the compiler unrolls the loops over the members.
pub fn mix(members: usize, samples: usize, s: &mut [u8])
    requires { (2 ≤ members) × ((members ≤ 4) × (members * (2 * samples) ≤ length s.old)) }
    ensures { s.new ≡ mixes_of members (2 * samples) s.old ++ drop (members * (2 * samples)) s.old }
{
    match members {
        2 => mix_of(2, samples, s),
        3 => mix_of(3, samples, s),
        _ => mix_of(4, samples, s),
    }
}
