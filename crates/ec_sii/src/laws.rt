//! What a master finds by the slave information interface, proved of the definitions that the contracts of this
//! crate cite. Each function does nothing; its contract is the law, which `specs/Laws.antt` spells out.

ghost use Rattle.ec_sii.specs.Laws.{ImagesSpellIdentities, ImagesSpellMailboxes, ImagesHaveSixtyFourWords, PlainTypesHavePlainImages, CategoriesAreShown, WordsFit, FullTypesAreReadBack, CategoriesAreRead, ManagersAreRead, PdosAreRead, ReadsShowWords, ReadsEndAtTheImage, BusyTakesNoWrite, StatusIsTheWord, CommandsAreTheWords, OthersHaveNoEffect};

/// The words of an image spell the identity: each number by two words, the low one first.
#[tactic(auto, unfolding(crate::specs::SiiImage::word_at))]
pub fn images_spell_identities()
    ensures { ImagesSpellIdentities }
{}

/// The words of an image give the places of the mailboxes; without mailboxes, and past a plain image, they are 0.
#[tactic(auto, unfolding(crate::specs::SiiImage::word_at))]
pub fn images_spell_mailboxes()
    ensures { ImagesSpellMailboxes }
{}

/// An image has 64 words; that of a full slave has more.
pub fn images_have_sixty_four_words()
    ensures { ImagesHaveSixtyFourWords }
{}

/// A slave that isn't full shows its identity and its mailboxes, and no more.
pub fn plain_types_have_plain_images()
    ensures { PlainTypesHavePlainImages }
{}

/// The categories begin at 0x40, and the end mark fills the image behind them.
pub fn categories_are_shown()
    ensures { CategoriesAreShown }
{}

/// Each word of a slave's image has 16 bits.
#[tactic(auto, using(crate::proofs::Fits::words_law))]
pub fn words_fit()
    ensures { WordsFit }
{}

/// A master that reads the categories of a full slave finds its name, its sync managers and its PDOs.
pub fn full_types_are_read_back()
    ensures { FullTypesAreReadBack }
{}

/// The reader of categories, step by step.
#[tactic(auto, using(crate::proofs::Steps::categories_law))]
pub fn categories_are_read()
    ensures { CategoriesAreRead }
{}

/// The reader of sync managers, step by step.
#[tactic(auto, using(crate::proofs::Steps::managers_law))]
pub fn managers_are_read()
    ensures { ManagersAreRead }
{}

/// The reader of PDOs and entries, step by step.
#[tactic(auto, using(crate::proofs::Steps::pdos_law))]
pub fn pdos_are_read()
    ensures { PdosAreRead }
{}

/// A read that is commanded at an idle port shows the two words at its address after the next firmware step.
#[tactic(auto, unfolding(crate::specs::Port::written, crate::specs::Port::stepped, crate::specs::Port::sii_byte))]
pub fn reads_show_words()
    ensures { ReadsShowWords }
{}

/// A read past the image ends with an error, and the data stay.
#[tactic(auto, unfolding(crate::specs::Port::written, crate::specs::Port::stepped, crate::specs::Port::sii_byte))]
pub fn reads_end_at_the_image()
    ensures { ReadsEndAtTheImage }
{}

/// A busy port takes no write.
#[tactic(auto, unfolding(crate::specs::Port::written))]
pub fn busy_takes_no_write()
    ensures { BusyTakesNoWrite }
{}

/// The two bytes of the control and status register are its word.
#[tactic(auto, using(crate::proofs::Words::status_law))]
pub fn status_is_the_word()
    ensures { StatusIsTheWord }
{}

/// The command that the high byte of a word gives is the word's.
#[tactic(auto, using(crate::proofs::Words::command_law))]
pub fn commands_are_the_words()
    ensures { CommandsAreTheWords }
{}

/// A write that leaves 0x0503 to 0x0507 alone has no effect.
#[tactic(auto, unfolding(crate::specs::Port::written))]
pub fn others_have_no_effect()
    ensures { OthersHaveNoEffect }
{}
