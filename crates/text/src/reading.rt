// What a reader of a night knows after some lines.
use crate::report::Report;
use night::task::Task;

#[derive(Drop)]
pub struct Reading {
    // the number of hours; none, before there was a header
    pub hours: Option<usize>,
    // the tasks, in order
    pub tasks: Vec<Task>,
    // the name of each task; a list of its own, since a night takes the tasks alone
    pub names: Vec<String>,
    // the mistakes, and the line that is read
    pub report: Report,
}
