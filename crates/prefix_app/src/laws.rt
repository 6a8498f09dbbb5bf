// Laws of the outputs of runs.
ghost use Rattle.std.specs.Prelude.{◌≡◌, ◌↔◌, ℕ, List};
ghost use Rattle.prefix_model.specs.Tables.{SameAnswers};
ghost use Rattle.prefix_app.specs.Compacted.{SpellsLeast};
ghost use Rattle.prefix_app.specs.Dumps.{DumpsAreBuilt};
ghost use Rattle.prefix_app.specs.Exact.{OverflowsExactly, RefusesExactly};
ghost use Rattle.prefix_app.specs.Steps.{TellsTables};

use prefix_joint_archive::laws::compacting_is_canonical;
use prefix_text::laws::dumps_are_read;

/// The outputs of two runs that were done are equal exactly where each address has the same answer in both inputs, or
/// none in both.
pub fn outputs_are_canonical()
    ensures { (a b new_a new_b : List ℕ) (s : SpellsLeast a new_a) (t : SpellsLeast b new_b)
        → (new_a ≡ new_b) ↔ (SameAnswers 32 s.first t.first × SameAnswers 128 s.second t.second) }
{
    compacting_is_canonical::<u32>();
}

/// The tables over which an outcome is defined are those that the bytes spell, and its cause is the first one.
pub fn outcomes_tell_tables()
    ensures { TellsTables }
{}

/// The lines that `dump` prints of an archive are taken by `build`, which makes that archive of them again.
pub fn dumps_are_built()
    ensures { DumpsAreBuilt }
{
    dumps_are_read();
}

/// Each command that reads an archive is refused exactly where the bytes spell no two tables.
pub fn refusals_are_exact()
    ensures { RefusesExactly }
{}

/// `compact` overflows exactly where the bytes spell two tables and a least one of them has 2^32 positions or more.
pub fn overflows_are_exact()
    ensures { OverflowsExactly }
{}
