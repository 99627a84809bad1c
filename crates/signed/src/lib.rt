// A signed number in a cell, as its two's complement: its two sides, and what it is after so much more or less.
#![tactic(auto)]

ghost use Rattle.std.specs.Prelude.{◌≡◌};
ghost use Rattle.rule.specs.Layout.{plus, minus};
ghost use Rattle.signed.specs.Sums.{cell_more, cell_less};

// "Positive is owed to the clearing house, negative is due from it": the two sides of a signed cell. Two functions of a line each: one for
// both would ask which side, and be no plainer.
pub fn owed_of(cell: u64) -> u64
    ensures { result ≡ plus cell }
{
    cell.cast_signed().max(0).unsigned_abs()
}

pub fn due_of(cell: u64) -> u64
    ensures { result ≡ minus cell }
{
    cell.cast_signed().min(0).unsigned_abs()
}

// So much is added to it.
pub fn more(cell: u64, n: u64) -> u64
    ensures { result ≡ cell_more cell n }
{
    cell.wrapping_add(n)
}

// So much is taken from it.
pub fn less(cell: u64, n: u64) -> u64
    ensures { result ≡ cell_less cell n }
{
    cell.wrapping_sub(n)
}
