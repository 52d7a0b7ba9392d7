use std::io::Error;

// What ends a run before all is done: output that is lost, or names that cannot be read.
#[derive(Clone, Copy)]
pub enum Failure {
    Output(Error),
    Names(Error),
}

impl From<Error> for Failure {
    fn from(error: Error) -> Failure {
        Failure::Output(error)
    }
}
