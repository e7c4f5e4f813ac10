// The grid of document 02, A.10: the multiples of 2^-20 from -2^20 to 2^20. specs/ says why sums of such numbers are exact.
#![tactic(auto)]

ghost use Rattle.std.specs.Prelude.{◌≡◌};
ghost use Rattle.grid.specs.Grid.{on_grid, nine_on_grid as nineAre};

// Whether x is on the grid. NaN is not between the ends; between them the product with 2^20 is exact, so it is whole exactly if x is a
// whole number of steps.
pub fn on_grid(x: f64) -> bool
    ensures { result ≡ on_grid x }
{
    if x <= 1048576.0 {
        if x >= -1048576.0 {
            let y = x * 1048576.0;
            return common::round(y) == y;
        }
    }
    false
}

// Whether all nine numbers of a block are.
pub fn nine_on_grid(v: [f64; 9]) -> bool
    ensures { result ≡ nineAre v }
{
    for x in &v {
        if !on_grid(*x) {
            return false;
        }
    }
    true
}
