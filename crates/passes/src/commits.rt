// SyncState::try_commit
ghost use Rattle.std.specs.Prelude.{◌<◌, get_or};
ghost use Rattle.model.specs.Sync.{try_commit};
ghost use Rattle.state.specs.Contract.{HasState, Reads, Edits};
ghost use Rattle.machine.specs.Contract.{Does, Changes};
ghost use Rattle.passes.specs.Committing.{apply_at, apply_all, seen_kept, apply_open, stage_all, read_open, is_ready, commit_open};

use machine::Progress;
use pass_tables::Names;
use staged::Staged;

// Stores or takes out the record of staged entry i.
fn apply_entry(work: &mut [u8], p: Progress, i: usize) -> Progress
    requires has_state { HasState work.old }
    requires i_bound { i < get_or work.old 9221 0 }
    ensures { Changes (apply_at i) work.old p result work.new }
{
    let name = staged::staged_name(work, i);
    match staged::entry(work, i) {
        Staged::Present(at) => observe::put_record_at(work, p, name, at),
        Staged::Unread => p,
        Staged::Removed => {
            records::remove_record(work, name);
            p
        }
    }
}

fn apply_staged(work: &mut [u8], p: Progress) -> Progress
    requires { HasState work.old }
    ensures { Changes apply_all work.old p result work.new }
{
    let mut progress = p;
    let mut i = 0;
    let mut count = staged::staged_count(work);
    while i < count {
        progress = apply_entry(work, progress, i);
        count = staged::staged_count(work);
        i += 1;
    }
    progress
}

// Of a full pass, keeps the records that it has seen.
fn keep_seen(work: &mut [u8])
    requires { HasState work.old }
    ensures { Edits seen_kept work.old work.new }
{
    if pass_tables::is_full(work) {
        records::retain_seen(work);
    }
}

// The staged entries stand in the work buffer, so the pass is closed after them and not before.
fn apply_pass(work: &mut [u8], out: &mut [u8], p: Progress) -> Progress
    requires { HasState work.old }
    ensures { Does apply_open work.old out.old p result work.new out.new }
{
    let q = apply_staged(work, p);
    keep_seen(work);
    pass_header::take_cursor(work);
    pass_header::close_pass(work);
    machine::tell_synced(out, q)
}

fn stage_observed(work: &mut [u8], p: Progress) -> Progress
    requires { HasState work.old }
    ensures { Changes stage_all work.old p result work.new }
{
    let mut progress = p;
    let mut i = 0;
    let mut count = Names::Observed.count(work);
    while i < count {
        let name = Names::Observed.at(work, i);
        progress = observe::stage_unread(work, progress, name);
        count = Names::Observed.count(work);
        i += 1;
    }
    progress
}

fn read_observed(work: &mut [u8], out: &mut [u8], p: Progress) -> Progress
    requires { HasState work.old }
    ensures { Does read_open work.old out.old p result work.new out.new }
{
    let q = stage_observed(work, p);
    Names::Observed.clear(work);
    observe::read_unread(work, out, q)
}

// Whether the listing is done, and nothing that it listed is still to be read.
fn ready(work: &[u8]) -> bool
    requires { HasState work.now }
    ensures { Reads is_ready work.now result }
{
    if staged::any_unread(work) {
        return false;
    }
    pass_header::is_done(work)
}

fn commit(work: &mut [u8], out: &mut [u8], p: Progress) -> Progress
    requires { HasState work.old }
    ensures { Does commit_open work.old out.old p result work.new out.new }
{
    if Names::Observed.count(work) == 0 {
        return apply_pass(work, out, p);
    }
    read_observed(work, out, p)
}

pub fn try_commit(work: &mut [u8], out: &mut [u8], p: Progress) -> Progress
    requires { HasState work.old }
    ensures { Does try_commit work.old out.old p result work.new out.new }
{
    if ready(work) {
        return commit(work, out, p);
    }
    p
}
