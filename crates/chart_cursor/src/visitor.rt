//! Looking at the open nodes of a chart, one after another.
use chart_core::{Arm, Condition, Node, Progress, Step};

/// Looks at open nodes, one after another.
pub trait Visitor {
    ghost use Rattle.std.specs.Prelude.{◌≡◌, ◌<◌, ◌^◌};
    ghost use Rattle.chart_core.specs.Formulas.{plain_condition};
    ghost use Rattle.chart_core.specs.Trees.{arm_sizes, arms, choice, leaf, loop, plain_step, plain_node};
    ghost use Rattle.chart_core.specs.declared.progress.Progress.TheVariants.{Untouched};
    ghost use Rattle.chart_cursor.specs.OpenNodes.{OpenNode};

    /// What the visitor is after one open node more.
    ghost after: { Self → OpenNode → Self };

    /// Looks at a step that has come so far.
    fn step(&mut self, step: &Step, number: u32, progress: Progress)
        ensures { self.new ≡ after self.old (record {
          number = number;
          node = leaf (plain_step step.now);
          progress = progress;
        }) };

    /// Looks at a selection that hasn't chosen.
    fn choice(&mut self, each: &[Arm], number: u32)
        requires { arm_sizes (arms each.now) < 2 ^ 32 }
        ensures { self.new ≡ after self.old (record {
          number = number;
          node = choice (arms each.now);
          progress = Untouched;
        }) };

    /// Looks at a loop whose body is done.
    fn turn(&mut self, body: &Node, until: &Condition, number: u32)
        ensures { self.new ≡ after self.old
            (record {
              number = number;
              node = loop (plain_node body.now) (plain_condition until.now);
              progress = Untouched;
            }) };
}
