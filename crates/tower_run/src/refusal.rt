//! The errors of the stacks, as the transcript shows them.

use crate::script::Word;
use std::fmt::Display;
use tower_limit::limit::concurrency;
use tower_ware::{load_shed, timeout};

/// An error with a text, which may report that allocation failed.
pub trait Refusal: Display {
    /// Returns whether allocation failed, so that the run has no transcript.
    fn is_memory(&self) -> bool;
}

impl Refusal for Word<'_> {
    fn is_memory(&self) -> bool {
        false
    }
}

impl<E: Refusal> Refusal for timeout::Error<E> {
    fn is_memory(&self) -> bool {
        match self {
            timeout::Error::Inner(error) => error.is_memory(),
            timeout::Error::Elapsed => false,
        }
    }
}

impl<E: Refusal> Refusal for load_shed::Error<E> {
    fn is_memory(&self) -> bool {
        match self {
            load_shed::Error::Inner(error) => error.is_memory(),
            load_shed::Error::Overloaded => false,
        }
    }
}

impl<E: Refusal> Refusal for concurrency::Error<E> {
    fn is_memory(&self) -> bool {
        match self {
            concurrency::Error::Inner(error) => error.is_memory(),
            concurrency::Error::Memory => true,
        }
    }
}
