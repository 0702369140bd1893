//! The law of migration.
ghost use Rattle.pol_migration.specs.Migration.{MigrationKeepsOutputs};

/// The output of a migrated journal is the output of the journal by version 1, without its fault lines.
#[tactic(auto, using(crate::proofs::Outputs::outputs_kept))]
pub fn migration_keeps_outputs()
    ensures { MigrationKeepsOutputs }
{}
