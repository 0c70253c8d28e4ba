// What can change in a night.
use night::task::Task;

#[derive(Clone, Copy, PartialEq, Eq, Debug)]
pub enum Change {
    // a task comes, with its units and hours
    Comes(Task),
    // task j goes
    Goes(usize),
    // task j needs this many units more
    More(usize, u32),
}
