//! The text of a run of `live`, written from the versions at which its readers answered.
use crate::versions::versions_in;
use std::alloc::Global;
use std::str;
use std::test::Fail;

/// What a run of `live` may print.
#[derive(Clone, Copy)]
pub struct Live<'a> {
    /// What `reorder` prints with the same words.
    pub reordered: &'a str,
    /// How many readers ask, one at least.
    pub readers: usize,
    /// The number of each query's line, and a bit for each document that the query means.
    pub queries: &'a [(u32, u32)],
    /// How many versions there are.
    pub versions: usize,
    /// How many documents there are.
    pub documents: usize,
    /// For each version the old number at each new one, one version behind another.
    pub orders: &'a [u32],
    /// The name of each document by its old number, parted by blanks.
    pub names: &'a str,
}

/// Whether the document is one of those that have a bit.
fn is_in(documents: u32, document: u32) -> bool {
    document < 32 && (documents >> document) & 1 == 1
}

impl Live<'_> {
    /// The name of a document.
    fn name(&self, document: u32) -> &str {
        match self.names.split_whitespace().nth(document as usize) {
            Some(name) => name,
            None => "none",
        }
    }

    /// A line for each of the documents, by their numbers at a version, where there is such a version.
    fn put_documents(
        &self,
        alloc: Global,
        version: usize,
        documents: u32,
        text: &mut String,
    ) -> Result<(), Fail> {
        let width = self.documents.max(1);
        for (place, document) in self.orders.iter().enumerate() {
            if place / width == version && is_in(documents, *document) {
                let number = place % width;
                let name = self.name(*document);
                text.push_str(&format!(in alloc; "{number} {name}\n")?)?;
            }
        }
        Ok(())
    }

    /// A block of a query at a version.
    fn put_block(
        &self,
        alloc: Global,
        word: &str,
        query: (u32, u32),
        version: usize,
        text: &mut String,
    ) -> Result<(), Fail> {
        let (line, documents) = query;
        let count = documents.count_ones();
        text.push_str(&format!(in alloc; "{word} {line} version {version} matches {count}\n")?)?;
        self.put_documents(alloc, version, documents, text)
    }

    /// The live blocks of the queries at these versions, in order.
    fn put_live(&self, alloc: Global, versions: &[usize], text: &mut String) -> Result<(), Fail> {
        for (query, version) in self.queries.iter().zip(versions) {
            self.put_block(alloc, "live", *query, *version, text)?;
        }
        Ok(())
    }

    /// The last version.
    fn last(&self) -> usize {
        self.versions.saturating_sub(1)
    }

    /// The final blocks of the queries.
    fn put_finals(&self, alloc: Global, text: &mut String) -> Result<(), Fail> {
        for query in self.queries {
            self.put_block(alloc, "final", *query, self.last(), text)?;
        }
        Ok(())
    }

    /// The text of answers at these versions.
    fn text(&self, alloc: Global, versions: &[usize]) -> Result<String, Fail> {
        let mut text = String::from_str(alloc, self.reordered)?;
        let readers = self.readers;
        text.push_str(&format!(in alloc; "readers {readers}\n")?)?;
        self.put_live(alloc, versions, &mut text)?;
        self.put_finals(alloc, &mut text)?;
        Ok(text)
    }

    /// The version that was seen before a place by the reader whose turn it is there.
    fn seen_before(&self, versions: &[usize], place: usize) -> usize {
        if place < self.readers {
            return 0;
        }
        match versions.get(place - self.readers) {
            Some(version) => *version,
            None => 0,
        }
    }

    /// Whether no version is above the last one, nor falls from one turn of a reader to its next.
    fn are_seen(&self, versions: &[usize]) -> bool {
        for (place, version) in versions.iter().enumerate() {
            if self.last() < *version || *version < self.seen_before(versions, place) {
                return false;
            }
        }
        versions.len() <= self.queries.len()
    }

    /// Puts versions behind others until each query has one: that which its reader saw last.
    fn fill(&self, versions: &mut Vec<usize>) -> Result<(), Fail> {
        for _ in 0..self.queries.len() {
            if versions.len() < self.queries.len() {
                versions.push(self.seen_before(versions, versions.len()))?;
            }
        }
        Ok(())
    }

    /// The versions at which the queries were answered, where the text is that of such a run.
    pub fn versions_of(&self, alloc: Global, printed: &[u8]) -> Result<Option<Vec<usize>>, Fail> {
        let printed = str::from_utf8(printed)?;
        let versions = versions_in(alloc, printed)?;
        if versions.len() != self.queries.len() || !self.are_seen(&versions) {
            return Ok(None);
        }
        if self.text(alloc, &versions)?.as_str() != printed {
            return Ok(None);
        }
        Ok(Some(versions))
    }

    /// Whether the text is that of such a run.
    pub fn is_text(&self, alloc: Global, printed: &[u8]) -> Result<bool, Fail> {
        Ok(self.versions_of(alloc, printed)?.is_some())
    }

    /// Whether the text is the first of that of such a run.
    pub fn is_front(&self, alloc: Global, printed: &[u8]) -> Result<bool, Fail> {
        let printed = str::from_utf8(printed)?;
        let mut versions = versions_in(alloc, printed)?;
        self.fill(&mut versions)?;
        if !self.are_seen(&versions) {
            return Ok(false);
        }
        Ok(
            self.text(alloc, &versions)?
                .as_bytes()
                .starts_with(printed.as_bytes()),
        )
    }
}
