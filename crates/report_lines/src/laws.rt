//! Laws of the report, as contracts of functions that do nothing.

ghost use Rattle.std.specs.Prelude.{◌≡◌, ◌+◌, ◌≤◌, ◌↔◌, ◌∷◌, ℕ, List, Contains, count_by, length, true};
ghost use Rattle.report_lines.specs.declared.history.Line.{Line};
ghost use Rattle.report_lines.specs.declared.history.Moment.{Moment};
ghost use Rattle.report_lines.specs.History.{PermutationRun};
ghost use Rattle.report_lines.specs.Report.{reports, report};
ghost use Rattle.report_lines.specs.Code.Walk.{polled, all_polls};
ghost use Rattle.report_lines.specs.Tries.{tries, said, IsReportPoint};
ghost use Rattle.session_machine.specs.declared.reply.HistItem.{HistItem};
ghost use Rattle.report_lines.specs.Starts.{is_order};
ghost use Rattle.report_lines.specs.Due.{Launches, orders, due};
ghost use Rattle.report_lines.specs.Fronts.{with_more};
ghost use Rattle.report_lines.specs.Invalid.{IsInvalid};
ghost use Rattle.report_lines.specs.declared.history.RunState.TheVariants.{Invalid};

/// However many passes were made at a moment, no more would report anything.
pub fn no_further_pass()
    ensures { (c : PermutationRun) (m : Moment) (lines : List Line) (more : ℕ) → polled c m (m.joined + 1 + more) lines ≡ all_polls c m lines }
{}

/// The lines of the report are what its tries say, in their order.
pub fn lines_are_what_the_tries_say()
    ensures { (c : PermutationRun) (count : ℕ) → (report c count).lines ≡ said c (tries c count) }
{}

/// A line reports an instance exactly where it stands for the first of the instance's tries that meets the condition;
/// an instance without such a try has none.
pub fn each_is_reported_at_its_first_chance()
    ensures { (c : PermutationRun) (count i : ℕ) (line : Line) → (Contains (report c count).lines line × (reports i line ≡ true)) ↔ IsReportPoint c (tries c count) i line }
{}

/// No instance is reported twice.
pub fn no_step_is_reported_twice()
    ensures { (c : PermutationRun) (count i : ℕ) → count_by (reports i) (report c count).lines ≤ 1 }
{}

/// A permutation is invalid exactly where a session's step is still active when its next one's turn comes, or some step at the end.
pub fn invalid_where_a_step_is_still_active()
    ensures { (c : PermutationRun) (count : ℕ) → (report c count).state ≡ Invalid ↔ IsInvalid c count }
{}

/// What was told before an order stays so, whatever the history goes on with.
pub fn what_was_reported_stays()
    ensures { (c : PermutationRun) (item : HistItem) (more : List HistItem) (count : ℕ) → is_order item.event ≡ true → orders c.items ≡ c.setups + count →
        report (with_more c (item ∷ more)) count ≡ report c count }
{}

/// What was due before an order can be told from the whole history.
pub fn what_was_due_stays()
    ensures { (l : Launches) (c : PermutationRun) (item : HistItem) (more : List HistItem) → is_order item.event ≡ true → c.setups ≡ length l.setups →
        due l (with_more c (item ∷ more)) (orders c.items) ≡ due l c (orders c.items) }
{}
