/// How an input is given and a folder is bounded: the input comes in pieces of so many bytes, of which so many are used; a slot may have so many bytes, and
/// the mark so many; and the take and the call of the desk that fail, counted from 0.
#[derive(Clone, Copy)]
pub struct How {
    pub piece: usize,
    pub most: u64,
    pub slot: u64,
    pub mark: u64,
    pub take: u32,
    pub call: u32,
}

impl How {
    /// In pieces of 65,536 bytes, where neither the input nor the folder meets a bound and nothing fails.
    pub const AMPLE: How = How {
        piece: 65_536,
        most: 2_097_152,
        slot: 524_288,
        mark: 8,
        take: u32::MAX,
        call: u32::MAX,
    };

    // Takes a word, as `piece=1`.
    fn take_word(&mut self, word: &str) {
        if let Some((name, number)) = word.split_once('=') {
            let number = number.parse::<u32>().unwrap_or(0);
            match name {
                "piece" => self.piece = number as usize,
                "most" => self.most = u64::from(number),
                "slot" => self.slot = u64::from(number),
                "mark" => self.mark = u64::from(number),
                "take" => self.take = number,
                _ => self.call = number,
            }
        }
    }

    /// The same but for what some words say, as `piece=1 slot=64`.
    pub fn by(self, words: &str) -> How {
        let mut how = self;
        for word in words.split_whitespace() {
            how.take_word(word);
        }
        how
    }
}
