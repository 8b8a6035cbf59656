// A bucket of at most 64 tags, by value: 66 words. Its methods take it by value and hand back the next bucket with the answer.
// Every contract holds for any words: what a bucket says of its tags, `tags_in` of specs/, is defined for all of them.
#![tactic(auto)]

ghost use Rattle.std.specs.Prelude.{◌≡◌, true, ◌≤◌, length, ltb};
ghost use Rattle.spec.specs.Lists.{filter, ascending};
ghost use Rattle.spec.specs.Words.{bucket_of};
ghost use Rattle.bucket.specs.Bucket.{rank, stands_at, found, tags_in, added, removed, frozen_of, changed};

// The number of a tag's place, passed on to those who look a bucket up.
pub use slots::{remainder, slot};

// A bucket's words, and the most tags that it may have.
pub const WORDS: usize = bucket_words::WORDS;

pub const MOST_TAGS: usize = 64;

#[derive(Clone, Copy)]
pub struct Bucket {
    pub words: [u32; WORDS],
}

// What a bucket answers.
#[derive(Clone, Copy)]
pub enum Response {
    Yes,
    No,
    Frozen,
    Full,
}

// The next bucket, the answer, and how many tags the next bucket holds.
#[derive(Clone, Copy)]
pub struct Changed {
    pub bucket: Bucket,
    pub answer: Response,
    pub count: u32,
}

impl Bucket {
    // Its tags, where they stand: at most 64.
    pub fn tags(&self) -> &[u32]
        ensures tags { result.now ≡ tags_in self.now.words }
        ensures most { length result.now ≤ 64 }
    {
        let n = (self.words[1] as usize).min(MOST_TAGS);
        &self.words[2..2 + n]
    }

    // How many tags it has, at most 64.
    pub fn count(self) -> usize
        ensures { (result ≡ length (tags_in self.words)) × (result ≤ 64) }
    {
        self.tags().len()
    }

    // The search, counted in a byte: how many tags at the front are below this one. Paper 02, U4: "it ends at the count of that bucket's
    // tags below the one sought, at most 64". The tags of a sound bucket ascend; what it gives of others is said too.
    pub fn position(self, tag: u32) -> u8
        ensures rank { result ≡ rank tag (tags_in self.words) }
        ensures most { result ≤ 64 }
        ensures below { ascending (tags_in self.words) ≡ true → result ≡ length (filter (λ k. ltb k tag) (tags_in self.words)) }
    {
        bucket_search::position(&self.words, self.count() as u8, tag)
    }

    // The tag stands at position p.
    fn stands_at(self, p: u8, tag: u32) -> bool
        ensures { result ≡ stands_at p tag (tags_in self.words) }
    {
        (p as usize) < self.count() && self.words[2 + p as usize] == tag
    }

    pub fn has(self, tag: u32) -> bool
        ensures { result ≡ found tag (tags_in self.words) }
    {
        let p = self.position(tag);
        self.stands_at(p, tag)
    }

    pub fn add(self, tag: u32) -> Changed
        ensures { result ≡ added self tag }
    {
        if self.words[0] == 0 {
            return answered(self, Response::Frozen);
        }
        let p = self.position(tag);
        if self.stands_at(p, tag) {
            return answered(self, Response::No);
        }
        let n = self.count();
        if MOST_TAGS <= n {
            return answered(self, Response::Full);
        }
        let words = bucket_words::put(&self.words, n, p as usize, tag);
        answered(Bucket { words }, Response::Yes)
    }

    pub fn remove(self, tag: u32) -> Changed
        ensures { result ≡ removed self tag }
    {
        if self.words[0] == 0 {
            return answered(self, Response::Frozen);
        }
        let p = self.position(tag);
        if self.stands_at(p, tag) {
            let words = bucket_words::cut(&self.words, self.count(), p as usize, tag);
            return answered(Bucket { words }, Response::Yes);
        }
        answered(self, Response::No)
    }

    pub fn freeze(mut self) -> Bucket
        ensures { result ≡ frozen_of self }
    {
        self.words[0] = 0;
        self
    }
}

// A bucket with an answer: how many tags it holds is counted here alone.
pub fn answered(b: Bucket, answer: Response) -> Changed
    ensures { result ≡ changed b.words answer }
{
    Changed {
        bucket: b,
        answer,
        count: b.count() as u32,
    }
}

// The bucket's tags in a changeable bucket.
pub fn opened(b: Bucket) -> Bucket
    ensures { result.words ≡ bucket_of 1 (tags_in b.words) }
{
    let n = b.count();
    let mut out = [0u32; WORDS];
    out[0] = 1;
    out[1] = n as u32;
    Bucket {
        words: bucket_words::copied(out, 2, &b.words, 2, n),
    }
}
