//! Laws of inputs.

ghost use Rattle.std.specs.Prelude.{◌≡◌, ◌*◌};
ghost use Rattle.engine_io.specs.declared.input.TheConstants.{INPUT_BYTES, INPUT_READS};

/// An input has 64 MiB at most, and is read in two calls for each of these bytes at most.
pub fn inputs_have_limits()
    ensures bytes { INPUT_BYTES ≡ 67108864 }
    ensures reads { INPUT_READS ≡ 134217728 }
    ensures enough { INPUT_READS ≡ 2 * INPUT_BYTES }
{}
