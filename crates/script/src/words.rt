// The words of a line, up to its comment.
ghost use Rattle.std.specs.Prelude.{◌≡◌, ◌<◌, ◌≤◌, [], ◌∷◌, ◌++◌, length, take};
ghost use Rattle.script.specs.Words.{spelt, before_comment, words_of};

// Every command has fewer words.
const MOST_WORDS: usize = 8;

// The first words of a line, in order. They stand in fixed memory, so no line is refused for want of it before it is understood.
#[derive(Clone, Copy, Debug)]
pub struct Words<'a> {
    count: usize,
    list: [&'a str; MOST_WORDS],
    ghost few: { count ≤ 8 },
    ghost whole: { length list ≡ 8 },
}

fn before_comment(line: &str) -> &str
    ensures { result.now ≡ before_comment line.now }
{
    line.split_once('#').map_or(line, |(text, _)| text)
}

impl<'a> Words<'a> {
    fn add(&mut self, word: &'a str)
        requires { self.old.count < 8 }
        ensures { take self.new.count self.new.list ≡ take self.old.count self.old.list ++ word.entry ∷ [] }
    {
        self.list[self.count] = word;
        self.count += 1;
    }

    pub(crate) fn of(line: &'a str) -> Words<'a>
        ensures few { result.count ≤ 8 }
        ensures words { spelt (take result.count result.list) ≡ words_of line.now }
    {
        let mut words = Words {
            count: 0,
            list: [""; MOST_WORDS],
        };
        let found = before_comment(line)
            .split(' ')
            .flat_map(|piece| piece.split('\t'))
            .filter(|word| !word.is_empty())
            .take(MOST_WORDS);
        for word in found {
            words.add(word);
        }
        words
    }

    pub(crate) fn as_slice(&self) -> &[&'a str]
        ensures { result.now ≡ take self.now.count self.now.list }
    {
        &self.list[0..self.count]
    }
}
