// A session's card, against the bytes behind a reading's nine words.
use session::Session;

// Whether the card is the one that the payload has, or there is none, with the refusal of the read.
pub fn is_right(session: Session, x: u64, payload: &[u8]) -> bool {
    match ledger::session_card(session) {
        Ok(card) => {
            let bytes = payload.get(72..128);
            x == 0 && bytes.is_some_and(|bytes| card::is_written_as(card, bytes))
        }
        Err(refusal) => crate::is_recorded(refusal, x),
    }
}
