//! A card is a suit and a rank; its code is 13 × suit + rank, from 0 to 51.

ghost use Rattle.std.specs.Prelude.{◌≡◌, ◌<◌};
ghost use Rattle.cards.specs.Codes.{suit_code, rank_code, card_code, Decodes};

/// The suits in rising code: clubs 0, diamonds 1, hearts 2, spades 3.
#[derive(Clone, Copy, PartialEq, Eq, PartialOrd, Ord, Debug)]
pub enum Suit {
    Clubs,
    Diamonds,
    Hearts,
    Spades,
}

/// The ranks in rising code: the twos 0, and so on to the aces 12.
#[derive(Clone, Copy, PartialEq, Eq, PartialOrd, Ord, Debug)]
pub enum Rank {
    Two,
    Three,
    Four,
    Five,
    Six,
    Seven,
    Eight,
    Nine,
    Ten,
    Jack,
    Queen,
    King,
    Ace,
}

/// A card. The order of cards is that of their codes.
#[derive(Clone, Copy, PartialEq, Eq, PartialOrd, Ord, Debug)]
pub struct Card {
    pub suit: Suit,
    pub rank: Rank,
}

/// A number that is no code of what was to be read from it.
#[derive(Clone, Copy, PartialEq, Eq, Debug)]
pub struct UnknownCode(pub u8);

impl From<Suit> for u8 {
    ghost from_gives = { λ suit code. (code ≡ suit_code suit) × (code < 4) };

    fn from(suit: Suit) -> u8 {
        suit as u8
    }
}

impl TryFrom<u8> for Suit {
    type Error = UnknownCode;

    ghost try_from_gives = { Decodes suit_code 4 };

    fn try_from(code: u8) -> Result<Suit, UnknownCode> {
        match code {
            0 => Ok(Suit::Clubs),
            1 => Ok(Suit::Diamonds),
            2 => Ok(Suit::Hearts),
            3 => Ok(Suit::Spades),
            _ => Err(UnknownCode(code)),
        }
    }
}

impl From<Rank> for u8 {
    ghost from_gives = { λ rank code. (code ≡ rank_code rank) × (code < 13) };

    fn from(rank: Rank) -> u8 {
        rank as u8
    }
}

impl TryFrom<u8> for Rank {
    type Error = UnknownCode;

    ghost try_from_gives = { Decodes rank_code 13 };

    fn try_from(code: u8) -> Result<Rank, UnknownCode> {
        match code {
            0 => Ok(Rank::Two),
            1 => Ok(Rank::Three),
            2 => Ok(Rank::Four),
            3 => Ok(Rank::Five),
            4 => Ok(Rank::Six),
            5 => Ok(Rank::Seven),
            6 => Ok(Rank::Eight),
            7 => Ok(Rank::Nine),
            8 => Ok(Rank::Ten),
            9 => Ok(Rank::Jack),
            10 => Ok(Rank::Queen),
            11 => Ok(Rank::King),
            12 => Ok(Rank::Ace),
            _ => Err(UnknownCode(code)),
        }
    }
}

impl From<Card> for u8 {
    ghost from_gives = { λ card code. (code ≡ card_code card) × (code < 52) };

    fn from(card: Card) -> u8 {
        13 * u8::from(card.suit) + u8::from(card.rank)
    }
}

impl TryFrom<u8> for Card {
    type Error = UnknownCode;

    ghost try_from_gives = { Decodes card_code 52 };

    fn try_from(code: u8) -> Result<Card, UnknownCode> {
        match (Suit::try_from(code / 13), Rank::try_from(code % 13)) {
            (Ok(suit), Ok(rank)) => Ok(Card { suit, rank }),
            _ => Err(UnknownCode(code)),
        }
    }
}
