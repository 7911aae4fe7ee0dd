// Z-curve order, without branches: scattered positions make branches hard to foresee.

ghost use Rattle.std.specs.Prelude.{◌≡◌, ltb};
ghost use Rattle.std.specs.Int.Count.{count_leading_zeros};
ghost use Rattle.refusal.specs.Choice.{pick};
ghost use Rattle.mesh_manifest.specs.zorder.Order.{z_before};

// Whether the highest bit of a stands above that of b: a then has a bit that is greater than all of b.
fn higher(a: u32, b: u32) -> bool
    ensures { result ≡ ltb (count_leading_zeros 32 a) (count_leading_zeros 32 b) }
{
    b < a - (a & b)
}

// Booleans are chosen and not positions: a choice of numbers is compiled to a branch.
fn choose(test: bool, a: bool, b: bool) -> bool
    ensures { result ≡ pick test a b }
{
    (test & a) | (!test & b)
}

// Whether position a stands before position b: the axis whose highest differing bit is the highest
// decides, z before y before x.
pub fn before(ax: u32, ay: u32, az: u32, bx: u32, by: u32, bz: u32) -> bool
    ensures { result ≡ z_before ax ay az bx by bz }
{
    let x = ax ^ bx;
    let y = ay ^ by;
    let z = az ^ bz;
    let by_x_or_y = choose(higher(x, y), ax < bx, ay < by);
    choose(higher(x | y, z), by_x_or_y, az < bz)
}
