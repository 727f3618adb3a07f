//! Pages as they are stored.
ghost use Rattle.std.specs.Prelude.{◌≡◌, ◌%◌, ◌^◌};

/// A page of pg_xact as it is stored.
pub(crate) fn stored_states(page: u64) -> u32
    ensures { result ≡ page % 2 ^ 17 }
{
    (page % 131_072) as u32
}

/// A page of pg_subtrans as it is stored.
pub(crate) fn stored_parents(page: u64) -> u32
    ensures { result ≡ page % 2 ^ 21 }
{
    (page % 2_097_152) as u32
}
