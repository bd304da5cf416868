// The ledger card: writer and reader, and the card of a session.
ghost use Rattle.std.specs.Prelude.{◌≡◌};
ghost use Rattle.funnelivy.specs.Cards.{write_card_answer, card_buffer, read_card_answer, session_card_answer};

use c_card::{FunnelivyCard, FunnelivyCardAnswer};
use c_record::FunnelivySession;
use card::Card;
use session::Session;

// Writes a card into a buffer of 56 bytes. Gives the refusal's number.
#[unsafe(no_mangle)]
pub extern "C" fn funnelivy_write_card(card: FunnelivyCard, out: &mut [u8]) -> u32
    ensures value { result ≡ write_card_answer card out.old }
    ensures out_after { out.new ≡ card_buffer card out.old }
{
    limits::number_or_zero(card::write_card(Card::from(card), out))
}

#[unsafe(no_mangle)]
pub extern "C" fn funnelivy_read_card(bytes: &[u8]) -> FunnelivyCardAnswer
    ensures { result ≡ read_card_answer bytes.now }
{
    card::read_card(bytes).into()
}

// The card of a session that has ended. Before the end there is none: 11.
#[unsafe(no_mangle)]
pub extern "C" fn funnelivy_session_card(session: FunnelivySession) -> FunnelivyCardAnswer
    ensures { result ≡ session_card_answer session }
{
    ledger::session_card(Session::from(session)).into()
}
