// The length of a run of bytes that is given for all components of a new row.
ghost use Rattle.std.specs.Prelude.{not, ◌&&◌, ◌≡◌, ltb, eqb};

// Whether a declared archetype is given a run of another length than its row's width.
pub fn is_run_wrong(declared: usize, archetype: usize, run: usize, width: usize) -> bool
    ensures { result ≡ (ltb archetype declared && not (eqb run width)) }
{
    archetype < declared && run != width
}
