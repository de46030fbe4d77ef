//! `follow`: a run of a plan that takes the steps of an order, in lines or as JSON.

ghost use Rattle.std.specs.Prelude.{◌≡◌, ◌≢◌, ◌⊎◌, ℕ, Ok, Err, OnOk, IfOk, IfErr};
ghost use Rattle.wire_types.specs.declared.Fault.TheVariants.{Memory, Read, Write};
ghost use Rattle.wire_types.specs.Counting.{one_more};
ghost use Rattle.wire_types.specs.Forms.{is_json};
ghost use Rattle.wire_types.specs.Outcome.{ends_of};
ghost use Rattle.wire_scripts.specs.Scripts.{Scripts, numbers_of};
ghost use Rattle.wire_scripts.specs.Planned.{plan_of};
ghost use Rattle.wire_runs.specs.State.{start};
ghost use Rattle.wire_runs.specs.Step.{run, IsInterleaving};
ghost use Rattle.wire_runs.specs.Ends.{outcome};
ghost use Rattle.wire_core.specs.Following.{Follows, NotEnabledAt};
ghost use Rattle.wire_core.specs.Course.{plan_in, state_of};
ghost use Rattle.wire_command.specs.Read.{ReadAs};
ghost use Rattle.wire_commands.specs.Follow.{WritesFollowed, BreaksOffFollowed, StopsBefore, OrdersAs, RefusesSteps};
ghost use Rattle.wire_commands.specs.Follow.{StopsAfter, report_after};

use std::alloc::Global;
use wire_command::{Alone, CommandOptions, read_scripts, read_up_to};
use wire_core::Core;
use wire_plan::Plan;
use wire_reader::{Size, read_order_sized};
use wire_report::{report_text, write_text};
use wire_scripts::Scripts;
use wire_types::{Fault, Outcome, Proc, Sink, Source};

/// Runs the steps of an order: reads the plan and then the order, each to its end, takes the
/// steps, and writes what became of every call. No finding is judged.
///
/// The faults of the file come first, then those of the order, of which all lines are judged before the
/// first step is taken: `BadOrder` with the line. `NotReady` has the number, from 1, of the first step
/// whose process isn't ready. After the fault `Write` the front of the report that it counts is written,
/// after any other fault nothing. `Memory` may come in place of any other answer. What is said of bytes is
/// said where the readers and the writer tell theirs.
pub fn follow_plan<R: Source, O: Source, W: Sink>(
    alloc: Global,
    manner: CommandOptions<'_>,
    reader: &mut R,
    order_reader: &mut O,
    writer: &mut W,
) -> Result<(), Fault>
    ensures ok { OnOk result (WritesFollowed manner.entry.size (is_json manner.entry.form) (R.coming reader.old)
        (O.coming order_reader.old) (W.written writer.old) (W.written writer.new)) }
    ensures quiet { OnOk result ((R.failures reader.new ≡ R.failures reader.old) × (O.failures order_reader.new ≡ O.failures order_reader.old)
        × (W.failures writer.new ≡ W.failures writer.old)) }

    // Either nothing was written, or the front of the report that the fault counts.
    ensures err { IfErr result (λ e. (StopsBefore manner.entry.size (R.coming reader.old) (O.coming order_reader.old) e × (writer.new ≡ writer.old))
        ⊎ (BreaksOffFollowed manner.entry.size (is_json manner.entry.form) (R.coming reader.old) (O.coming order_reader.old)
        (W.written writer.old) (W.written writer.new) e
        × (W.failures writer.new ≡ one_more (W.failures writer.old)))) }

    // A failed read is answered only where a reader failed, that of the order only where the file reads.
    ensures read_failed { result ≡ Err Read → (R.failures reader.new ≡ one_more (R.failures reader.old))
        ⊎ ((O.failures order_reader.new ≡ one_more (O.failures order_reader.old))
        × (scripts : Scripts) × ReadAs manner.entry.size (R.coming reader.old) scripts) }
    ensures unfailed { IfErr result (λ e. e ≢ Memory → e ≢ Read → (R.failures reader.new ≡ R.failures reader.old)
        × (O.failures order_reader.new ≡ O.failures order_reader.old)) }
{
    let scripts = read_scripts(&Alone, alloc, manner.size, reader)?;
    let order = match read_steps(alloc, manner.size, &scripts, order_reader) {
        Ok(order) => order,
        Err(fault) => {
            drop(scripts);
            return Err(fault);
        }
    };
    let text = followed_text(alloc, scripts, order.as_slice(), manner.form.is_json())?;
    write_text(writer, text.as_slice())
}

/// The steps of an order that is read to its end, or to one byte more than it may have, by which it is seen
/// to be too long.
fn read_steps<O: Source>(
    alloc: Global,
    size: Size,
    scripts: &Scripts,
    order_reader: &mut O,
) -> Result<Vec<Proc>, Fault>
    ensures ok { IfOk result (λ order. OrdersAs size (O.coming order_reader.old) scripts.now (numbers_of order.items)) }
    ensures quiet { OnOk result (O.failures order_reader.new ≡ O.failures order_reader.old) }
    ensures err { IfErr result (λ e. (e ≡ Memory) ⊎ (e ≡ Read) ⊎ RefusesSteps size (O.coming order_reader.old) scripts.now e) }
    ensures read { result ≡ Err Read → O.failures order_reader.new ≡ one_more (O.failures order_reader.old) }
    ensures unfailed { IfErr result (λ e. e ≢ Memory → e ≢ Read → O.failures order_reader.new ≡ O.failures order_reader.old) }
{
    let bytes = read_up_to(alloc, order_reader, size.order_bytes() + 1)?;
    read_order_sized(alloc, size, scripts, bytes.as_slice())
}

/// Takes these steps, and says what became of every call after them.
fn follow_order(alloc: Global, core: &mut Core<'_>, order: &[Proc]) -> Result<Outcome, Fault>
    ensures ok { IfOk result (λ o. Follows core.old (numbers_of order.now) core.new × (ends_of o ≡ outcome (plan_in core.new) (state_of core.new))) }
    ensures err { IfErr result (λ e. (e ≡ Memory) ⊎ NotEnabledAt core.old (numbers_of order.now) core.new e) }
{
    core.follow(order)?;
    core.outcome(alloc)
}

/// What became of every call after these steps.
fn outcome_after(alloc: Global, plan: &Plan, order: &[Proc]) -> Result<Outcome, Fault>
    ensures ok { IfOk result (λ o. IsInterleaving (plan_of plan.now) start (numbers_of order.now)
        × (ends_of o ≡ outcome (plan_of plan.now) (run (plan_of plan.now) (numbers_of order.now)))) }
    ensures err { IfErr result (λ e. (e ≡ Memory) ⊎ StopsAfter plan.now (numbers_of order.now) e) }
{
    let mut core = Core::new(alloc, plan)?;
    let outcome = follow_order(alloc, &mut core, order);
    drop(core);
    outcome
}

/// The report of the state after these steps of a plan, in lines or as JSON.
fn report_of(alloc: Global, plan: &Plan, order: &[Proc], json: bool) -> Result<Vec<u8>, Fault>
    ensures ok { IfOk result (λ text. IsInterleaving (plan_of plan.now) start (numbers_of order.now)
        × (text.items ≡ report_after json plan.now (numbers_of order.now))) }
    ensures err { IfErr result (λ e. (e ≡ Memory) ⊎ StopsAfter plan.now (numbers_of order.now) e) }
{
    let outcome = outcome_after(alloc, plan, order)?;
    report_text(alloc, plan.scripts(), &outcome, json)
}

/// The report of the state after these steps of scripts.
fn followed_text(
    alloc: Global,
    scripts: Scripts,
    order: &[Proc],
    json: bool,
) -> Result<Vec<u8>, Fault>
    ensures ok { IfOk result (λ text. IsInterleaving (plan_of scripts) start (numbers_of order.now)
        × (text.items ≡ report_after json scripts (numbers_of order.now))) }
    ensures err { IfErr result (λ e. (e ≡ Memory) ⊎ StopsAfter scripts (numbers_of order.now) e) }
{
    let plan = Plan::build(alloc, scripts)?;
    let text = report_of(alloc, &plan, order, json);
    drop(plan);
    text
}
