// The constants of Rabbit.
#![tactic(auto)]

ghost use Rattle.std.specs.Prelude.{◌≡◌};
ghost use Rattle.rabbit_tables.specs.Tables.{a_list};

static A: [u32; 8] = [
    0x4d34d34d, 0xd34d34d3, 0x34d34d34, 0x4d34d34d, 0xd34d34d3, 0x34d34d34, 0x4d34d34d, 0xd34d34d3,
];

// A0..A7.
pub fn a() -> &'static [u32; 8]
    ensures { result.now ≡ a_list }
{
    &A
}
