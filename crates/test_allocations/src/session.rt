//! Requests that are made again where memory is refused.

use request_lines::{line_of, request_of};
use task_board::{Board, Reply, Request};
use wasm_ast::Refusal;

/// How often a call is made at most.
pub const TRIES: u64 = 100;

/// What answers requests.
pub trait Answering {
    /// Whether a request may be refused for memory.
    fn takes_memory(&self, request: &Request) -> bool;

    /// Answers a request.
    fn answer(&mut self, request: Request) -> Result<Reply, Refusal>;
}

impl Answering for Board {
    fn takes_memory(&self, request: &Request) -> bool {
        request.takes_memory()
    }

    fn answer(&mut self, request: Request) -> Result<Reply, Refusal> {
        self.call(request)
    }
}

/// What is asked, and how often memory was refused so far.
#[derive(Drop)]
pub struct Session<'a, A> {
    pub rt: &'a HostRuntime,
    pub asked: A,
    pub refused: u64,
}

impl<A: Answering> Session<'_, A> {
    // What the line is answered. None where it was refused for memory, and takes some.
    fn try_line(&mut self, line: &str) -> Option<Result<Reply, Refusal>> {
        let request = match request_of(self.rt.alloc(), line.as_bytes()) {
            Ok(request) => request,
            Err(Refusal::NoMemory) => return None,
            Err(refusal) => return Some(Err(refusal)),
        };
        let takes_memory = self.asked.takes_memory(&request);
        match self.asked.answer(request) {
            Err(Refusal::NoMemory) if takes_memory => None,
            answer => Some(answer),
        }
    }

    // What the line is answered once memory is not refused.
    fn answer(&mut self, line: &str) -> Result<Reply, Refusal> {
        for _ in 0..TRIES {
            if let Some(answer) = self.try_line(line) {
                return answer;
            }
            self.refused = self.refused.saturating_add(1);
        }
        Err(Refusal::NoMemory)
    }

    // Prints the line of an answer.
    fn print(&mut self, answer: &Result<Reply, Refusal>) {
        for _ in 0..TRIES {
            if let Ok(line) = line_of(self.rt.alloc(), answer) {
                let _printed = print!(self.rt; "{line}");
                return;
            }
            self.refused = self.refused.saturating_add(1);
        }
    }

    /// Makes requests, and prints what they are answered.
    pub fn ask(&mut self, lines: &[&str]) {
        for line in lines {
            let answer = self.answer(line);
            self.print(&answer);
        }
    }
}
