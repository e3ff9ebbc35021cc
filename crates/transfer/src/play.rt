//! The transfers of a text, played one after another.
#[cfg(test)]
mod tests;

ghost use Rattle.std.specs.Prelude.{◌≡◌, ◌≤◌, true, false, [], ◌∷◌, ◌++◌, is_some, is_ok, None, vec_len};
ghost use Rattle.runs.specs.Calls.{begin_answer};
ghost use Rattle.transfer.specs.Flight.{submitted, began, cancelled, marked, step_followed, completed};

use crate::fault::Fault;
use crate::input::{Item, is_skipped, read_line};
use crate::show::{show_completion, show_end, show_misfit, show_refusal, show_submission};
use cqe::{Step, classify};
use records::{ChunkRow, Iovec, WaiterState};
use request::{Request, Wanted};
use runs::Transfer;
use sqe::Setting;
use std::alloc::{AllocError, Global};
use std::io;

const MOST_ROWS: usize = 70000;

const MOST_IOVECS: u32 = 70000;

const NO_BYTES: Iovec = Iovec { base: 0, length: 0 };

/// A transfer with a submission in flight.
#[derive(Clone, Copy)]
struct Running {
    transfer: Transfer,
    state: WaiterState,
    token: u64,
}

#[derive(Drop)]
struct Player {
    table: Vec<ChunkRow>,
    iovecs: Vec<Iovec>,
    /// Its token is that of the next transfer: the running one keeps its own.
    setting: Setting,
    running: Option<Running>,
}

impl Player {
    fn new(heap: Global) -> Result<Player, AllocError> {
        Ok(Player {
            table: Vec::new(heap),
            iovecs: vec![in heap; NO_BYTES; 1024]?,
            setting: Setting {
                descriptor: 3,
                hints: true,
                token: 0,
                list: 65536,
            },
            running: None,
        })
    }

    fn add_row(&mut self, row: ChunkRow) -> Result<(), Fault>
        ensures added { is_ok result ≡ true → self.new.table.items ≡ self.old.table.items ++ row ∷ [] }
        ensures full { 70000 ≤ vec_len self.old.table → is_ok result ≡ false }
    {
        if self.table.len() >= MOST_ROWS {
            return Err(Fault::Unreadable);
        }
        self.table.push(row)?;
        Ok(())
    }

    // Another file's hints are not known to be refused.
    fn set_file(&mut self, descriptor: u32)
        ensures descriptor { self.new.setting.descriptor ≡ descriptor }
        ensures hints { self.new.setting.hints ≡ true }
    {
        self.setting.descriptor = descriptor;
        self.setting.hints = true;
    }

    fn set_list(&mut self, heap: Global, place: u64, count: u32) -> Result<(), Fault>
        ensures list { is_ok result ≡ true → self.new.setting.list ≡ place }
        ensures count { is_ok result ≡ true → vec_len self.new.iovecs ≡ count }
    {
        if count > MOST_IOVECS {
            return Err(Fault::Unreadable);
        }
        self.setting.list = place;
        self.iovecs = vec![in heap; NO_BYTES; count as usize]?;
        Ok(())
    }

    fn submit(&mut self, rt: &HostRuntime, running: Running) -> io::Result<()>
        ensures running { self.new.running ≡ submitted self.old running }
        ensures same { self.new.setting ≡ self.old.setting }
    {
        let setting = Setting {
            token: running.token,
            ..self.setting
        };
        let mut transfer = running.transfer;
        match transfer.submit(setting, self.table.as_slice(), self.iovecs.as_mut_slice()) {
            Ok(submission) => {
                self.running = Some(Running {
                    transfer,
                    ..running
                });
                show_submission(rt, submission, self.iovecs.as_slice())
            }
            Err(denial) => {
                self.running = None;
                show_refusal(rt, denial)
            }
        }
    }

    fn leave(&mut self, rt: &HostRuntime) -> io::Result<()>
        ensures running { self.new.running ≡ None }
        ensures table { self.new.table ≡ self.old.table }
        ensures iovecs { self.new.iovecs ≡ self.old.iovecs }
        ensures setting { self.new.setting ≡ self.old.setting }
    {
        if self.running.is_some() {
            self.running = None;
            rt.println("unfinished")?;
        }
        Ok(())
    }

    fn begin(&mut self, rt: &HostRuntime, wanted: Wanted) -> io::Result<()>
        ensures { is_ok result ≡ true → self.new.running ≡ began self.old (begin_answer self.old.table.items wanted) }
    {
        self.leave(rt)?;
        match Transfer::begin(wanted, self.table.as_slice()) {
            Ok(transfer) => {
                println!(rt; "granted: {}", Request::from(transfer.standing()))?;
                let token = self.setting.token;
                self.submit(
                    rt,
                    Running {
                        transfer,
                        state: WaiterState::Active { tick: None },
                        token,
                    },
                )
            }
            Err(denial) => show_refusal(rt, denial),
        }
    }

    fn cancel(&mut self) -> Result<(), Fault>
        ensures answer { is_ok result ≡ is_some self.old.running }
        ensures running { self.new.running ≡ cancelled self.old.running }
    {
        let Some(running) = self.running else {
            return Err(Fault::Unreadable);
        };
        self.running = Some(Running {
            state: WaiterState::CancelRequested,
            ..running
        });
        Ok(())
    }

    fn follow(&mut self, rt: &HostRuntime, running: Running, step: Step) -> io::Result<()>
        ensures running { self.new.running ≡ step_followed self.old running step }
        ensures setting { self.new.setting ≡ marked self.old.setting step.unsupported }
    {
        if step.unsupported {
            self.setting.hints = false;
        }
        match step.outcome {
            None => self.submit(rt, running),
            Some(outcome) => {
                self.running = None;
                show_end(rt, step.request, outcome)
            }
        }
    }

    fn complete(&mut self, rt: &HostRuntime, res: i32) -> Result<(), Fault>
        ensures none { self.old.running ≡ None → is_ok result ≡ false }
        ensures running { is_ok result ≡ true → self.new.running ≡ completed self.old self.old.running res }
    {
        let Some(running) = self.running else {
            return Err(Fault::Unreadable);
        };
        let before = Request::from(running.transfer.standing());
        let mut transfer = running.transfer;
        match transfer.complete(self.table.as_slice(), running.state, res) {
            Ok(step) => {
                let class = classify(res, running.state.is_cancelled(), before.length() == 0);
                show_completion(rt, res, class, before, step)?;
                self.follow(
                    rt,
                    Running {
                        transfer,
                        ..running
                    },
                    step,
                )?;
            }
            Err(denial) => show_misfit(rt, res, denial)?,
        }
        Ok(())
    }

    fn play(&mut self, rt: &HostRuntime, item: Item) -> Result<(), Fault> {
        match item {
            Item::Row(row) => self.add_row(row)?,
            Item::File { descriptor } => self.set_file(descriptor),
            Item::Waiter(waiter) => self.setting.token = waiter.user_data(),
            Item::Iovecs { place, count } => self.set_list(rt.alloc(), place, count)?,
            Item::Begin(wanted) => self.begin(rt, wanted)?,
            Item::Cancel => self.cancel()?,
            Item::Completion { result } => self.complete(rt, result)?,
        }
        Ok(())
    }

    fn play_line(&mut self, rt: &HostRuntime, line: &str) -> Result<(), Fault> {
        if is_skipped(line) {
            return Ok(());
        }
        let Some(item) = read_line(rt.alloc(), line)? else {
            return Err(Fault::Unreadable);
        };
        self.play(rt, item)
    }
}

/// Plays a text; the number of the line that cannot be read, if any.
// No error: the line is told here, and who asks wants its number or only whether there is one.
pub(crate) fn play_text(rt: &HostRuntime, text: &str) -> io::Result<Option<usize>> {
    let mut player = Player::new(rt.alloc())?;
    for (number, line) in (1usize..).zip(text.lines()) {
        match player.play_line(rt, line) {
            Ok(()) => {}
            Err(Fault::Io(e)) => return Err(e),
            Err(Fault::Unreadable) => {
                println!(rt; "line {number}: cannot read: {line}")?;
                return Ok(Some(number));
            }
        }
    }
    player.leave(rt)?;
    Ok(None)
}
