ghost use Rattle.std.specs.Prelude.{◌≡◌};
ghost use Rattle.table.specs.Demands.{demand};

// The error is named where what is demanded does not hold.
pub fn demand<E: Drop>(holds: bool, error: E) -> Result<(), E>
    ensures { result ≡ demand holds error }
{
    if holds { Ok(()) } else { Err(error) }
}
