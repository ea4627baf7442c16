// Words of a command line that no transcript can have: none, and an empty one.
use settings::{SettingsFault, settings_of};
use std::alloc::Global;
use std::test::Fail;

// How many rows the words allow; `None` is a refusal.
fn rows(alloc: Global, texts: &[&str]) -> Result<Option<usize>, Fail> {
    let mut words = Vec::new(alloc);
    for text in texts {
        words.push(String::from_str(alloc, text)?)?;
    }
    match settings_of(alloc, &words) {
        Ok(settings) => Ok(Some(settings.rows)),
        Err(SettingsFault::Refused) => Ok(None),
        Err(fault) => Err(fault)?,
    }
}

// Words, the name of the program first where there is one, and how many rows they allow.
const WORDS: [(&[&str], Option<usize>); 4] = [
    (&[], Some(1000)),
    (&["semi", "--rows", "7"], Some(7)),
    (&["semi", "--rows", ""], None),
    (&["semi", ""], None),
];

#[test]
fn reads_no_word_and_an_empty_one(rt: HostRuntime) -> Result<(), Fail> {
    for (i, (texts, want)) in WORDS.iter().enumerate() {
        assert!(rt; rows(rt.alloc(), texts)? == *want, "case {i}");
    }
    Ok(())
}
