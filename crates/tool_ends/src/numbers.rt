//! Reading numbers from the words of the command line.
ghost use Rattle.std.specs.Prelude.{◌≡◌, ◌≤◌, ◌∷◌, [], ℕ, Some, IfSome, decimal, map, string_bytes};
ghost use Rattle.tool_ends.specs.Numbers.{Asks};

use event_script::numbers::number_up_to;

/// The number that `word` spells in decimal without leading zeros, if it is from `least` to `most`.
pub fn number_in(least: u32, most: u32, word: &str) -> Option<u32>
    ensures found { IfSome result (λ n. (word.now ≡ decimal n) × (least ≤ n) × (n ≤ most)) }
    ensures only { (n : ℕ) → word.now ≡ decimal n → least ≤ n → n ≤ most → result ≡ Some n }
{
    let number = number_up_to(u64::from(most), word.as_bytes())?;
    if number < u64::from(least) {
        return None;
    }
    Some(number as u32)
}

/// A command that takes three numbers: its name, and the bounds of each number.
#[derive(Drop)]
pub struct CommandForm<'a> {
    pub name: &'a str,
    pub first: (u32, u32),
    pub second: (u32, u32),
    pub third: (u32, u32),
}

impl CommandForm<'_> {
    // The three numbers of a command line that has four words.
    fn numbers_by(
        &self,
        command: &str,
        first: &str,
        second: &str,
        third: &str,
    ) -> Option<(u32, u32, u32)>
        ensures found { IfSome result (λ n.
            Asks self.now (command.now ∷ first.now ∷ second.now ∷ third.now ∷ []) n.0 n.1 n.2) }
        ensures only { (a b c : ℕ) → Asks self.now (command.now ∷ first.now ∷ second.now ∷ third.now ∷ []) a b c
            → result ≡ Some (a, b, c) }
    {
        if command != self.name {
            return None;
        }
        let first = number_in(self.first.0, self.first.1, first)?;
        let second = number_in(self.second.0, self.second.1, second)?;
        let third = number_in(self.third.0, self.third.1, third)?;
        Some((first, second, third))
    }

    /// The three numbers that follow the command's name in `words`. Returns `None` if the words are not this name and
    /// three numbers, each within its bounds.
    pub fn numbers(&self, words: &[String]) -> Option<(u32, u32, u32)>
        ensures found { IfSome result (λ n. Asks self.now (map string_bytes words.now) n.0 n.1 n.2) }
        ensures only { (a b c : ℕ) → Asks self.now (map string_bytes words.now) a b c → result ≡ Some (a, b, c) }
    {
        match words {
            [command, first, second, third] => self.numbers_by(
                command.as_str(),
                first.as_str(),
                second.as_str(),
                third.as_str(),
            ),
            _ => None,
        }
    }
}
