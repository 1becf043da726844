// The planner's calls for programs in other languages, as a static library: the calls of the crate abi under the names and the calling
// convention of C.
// Promises: each export answers what the call of its name in `abi` answers, and leaves in its buffers what that leaves, in the same words.
// It has no rules of its own. Uses abi, and flat and list for the lengths of bounds and starts.
#![tactic(auto)]

ghost use Rattle.abi.specs.Calls.{ReadCall, WriteCall, OverloadCall, ScheduleCall, SettleCall, PlanCall, EarlyCall, LateCall};
ghost use Rattle.abi.specs.Calls.{ReportCall, LineCall};
ghost use Rattle.abi.specs.DayCalls.{FreshCall, AskCall, CommitCall};
ghost use Rattle.abi.specs.RoomCalls.{TurnCall};
ghost use Rattle.abi.specs.SearchCalls.{UnbrokenCall};

use abi::Answer;
use flat::BOUNDS;
use list::types::ENTRIES;

#[unsafe(no_mangle)]
pub extern "C" fn dock_read(bytes: &[u8], fields: &mut [u32]) -> Answer
    ensures { ReadCall bytes.now fields.old result fields.new }
{
    abi::dock_read(bytes, fields)
}

#[unsafe(no_mangle)]
pub extern "C" fn dock_write(fields: &[u32], out: &mut [u8]) -> Answer
    ensures { WriteCall fields.now out.old result out.new }
{
    abi::dock_write(fields, out)
}

#[unsafe(no_mangle)]
pub extern "C" fn dock_overload(fields: &[u32]) -> Answer
    ensures { OverloadCall fields.now result }
{
    abi::dock_overload(fields)
}

#[unsafe(no_mangle)]
pub extern "C" fn dock_schedule(fields: &[u32], plan: &mut [u8]) -> Answer
    ensures { ScheduleCall fields.now plan.old result plan.new }
{
    abi::dock_schedule(fields, plan)
}

#[unsafe(no_mangle)]
pub extern "C" fn dock_settle(fields: &[u32], narrowed: &mut [u32]) -> Answer
    ensures { SettleCall fields.now narrowed.old result narrowed.new }
{
    abi::dock_settle(fields, narrowed)
}

#[unsafe(no_mangle)]
pub extern "C" fn dock_plan(
    fields: &[u32],
    plan: &mut [u8],
    narrowed: &mut [u32],
    bounds: &mut [u32; BOUNDS],
) -> Answer
    ensures { PlanCall fields.now plan.old narrowed.old bounds.old result
        plan.new narrowed.new bounds.new }
{
    abi::dock_plan(fields, plan, narrowed, bounds)
}

#[unsafe(no_mangle)]
pub extern "C" fn dock_early(
    fields: &[u32],
    place: u64,
    plan: &mut [u8],
    narrowed: &mut [u32],
) -> Answer
    ensures { EarlyCall fields.now place plan.old narrowed.old result
        plan.new narrowed.new }
{
    abi::dock_early(fields, place, plan, narrowed)
}

#[unsafe(no_mangle)]
pub extern "C" fn dock_late(
    fields: &[u32],
    place: u64,
    plan: &mut [u8],
    narrowed: &mut [u32],
) -> Answer
    ensures { LateCall fields.now place plan.old narrowed.old result
        plan.new narrowed.new }
{
    abi::dock_late(fields, place, plan, narrowed)
}

#[unsafe(no_mangle)]
pub extern "C" fn dock_report(bytes: &[u8], out: &mut [u8]) -> Answer
    ensures { ReportCall bytes.now out.old result out.new }
{
    abi::dock_report(bytes, out)
}

#[unsafe(no_mangle)]
pub extern "C" fn dock_refusal_line(number: u64, values: &[u64; 3], out: &mut [u8]) -> Answer
    ensures { LineCall number values.now out.old result out.new }
{
    abi::dock_refusal_line(number, values, out)
}

#[unsafe(no_mangle)]
pub extern "C" fn dock_fresh(fields: &[u32], day: &mut [u32]) -> Answer
    ensures { FreshCall fields.now day.old result day.new }
{
    abi::dock_fresh(fields, day)
}

#[unsafe(no_mangle)]
pub extern "C" fn dock_ask(
    day: &[u32],
    entry: &[u32],
    plan: &mut [u8],
    narrowed: &mut [u32],
    bounds: &mut [u32; BOUNDS],
) -> Answer
    ensures { AskCall day.now entry.now plan.old narrowed.old bounds.old result
        plan.new narrowed.new bounds.new }
{
    abi::dock_ask(day, entry, plan, narrowed, bounds)
}

#[unsafe(no_mangle)]
pub extern "C" fn dock_commit(
    day: &mut [u32],
    entry: &[u32],
    stamp: u64,
    plan: &mut [u8],
    narrowed: &mut [u32],
    bounds: &mut [u32; BOUNDS],
) -> Answer
    ensures { CommitCall day.old entry.now stamp plan.old narrowed.old
        bounds.old result day.new plan.new narrowed.new bounds.new }
{
    abi::dock_commit(day, entry, stamp, plan, narrowed, bounds)
}

#[unsafe(no_mangle)]
pub extern "C" fn dock_turn(
    rooms: &mut [u32],
    lists: &mut [u8],
    number: u64,
    carried: &mut [u64; 3],
) -> Answer
    ensures { TurnCall rooms.old lists.old number carried.old result
        rooms.new lists.new carried.new }
{
    abi::dock_turn(rooms, lists, number, carried)
}

#[unsafe(no_mangle)]
pub extern "C" fn dock_unbroken(
    fields: &[u32],
    limit: u32,
    plan: &mut [u8],
    narrowed: &mut [u32],
    starts: &mut [u32; ENTRIES],
) -> Answer
    ensures { UnbrokenCall fields.now limit plan.old narrowed.old starts.old result
        plan.new narrowed.new starts.new }
{
    abi::dock_unbroken(fields, limit, plan, narrowed, starts)
}
