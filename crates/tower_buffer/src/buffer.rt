//! A bounded queue before a service, which many callers share: the Rust's `tower::buffer`.

pub mod error;
pub mod future;
mod keys;
mod laws;
mod layer;
mod mail;
mod mail_core;
mod mailbox;
mod make;
mod message;
mod messages;
mod reservation;
mod service;
mod worker;

pub use error::Error;
pub use laws::{law, wakes};
pub use layer::{BufferLayer, Guard};
pub use mail::{MailReply, MailStep};
pub use mail_core::MailCore;
pub use message::{Fate, Message};
pub use reservation::{Reservation, ResponseState};
pub use service::Buffer;
pub use worker::Worker;
