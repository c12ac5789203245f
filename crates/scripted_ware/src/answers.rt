//! Answers that are turned round.

/// A response as an error, a hundred times as great, and an error as half a response.
pub fn turned(answer: Result<u8, u8>) -> Result<u8, u16> {
    match answer {
        Ok(response) => Err(response as u16 * 100),
        Err(error) => Ok(error / 2),
    }
}

/// A response as an error, half of it, and an error as a response, three more.
pub fn crossed(outcome: Result<u8, u8>) -> Result<u8, u16> {
    match outcome {
        Ok(response) => Err(u16::from(response / 2)),
        Err(error) => Ok(error.saturating_add(3)),
    }
}
