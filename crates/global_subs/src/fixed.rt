// The atoms that are not turned, or not again, for one question. Nothing is proved of them.

use inst_logic::Memory;
use std::alloc::Global;

// The question for which each atom was fixed last, and the number of this one, which is above that of those before.
#[derive(Drop)]
pub struct Fixed {
    questions: Vec<u64>,
    question: u64,
}

impl Fixed {
    pub fn new(alloc: Global) -> Fixed {
        Fixed {
            questions: Vec::new(alloc),
            question: 1,
        }
    }

    // Begins with another question, for which no atom is fixed.
    pub fn clear(&mut self) {
        self.question = self.question.saturating_add(1);
    }

    pub fn contains(&self, atom: usize) -> bool {
        self.questions.get(atom).copied() == Some(self.question)
    }

    pub fn insert(&mut self, atom: usize) -> Result<(), Memory> {
        let missing = atom.saturating_add(1).saturating_sub(self.questions.len());
        for _ in 0..missing {
            self.questions.push(0)?;
        }
        if atom < self.questions.len() {
            self.questions[atom] = self.question;
        }
        Ok(())
    }
}
