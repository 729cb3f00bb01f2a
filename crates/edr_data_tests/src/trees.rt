//! Packed trees of JSON beside those of `serde_json`: each text is read to the same data, or by neither.
use edr_json::{JsonFault, Samples, Tree, read_tree};
use serde_json::{Number, Value};
use std::alloc::{AllocError, Global};
use std::rt::HostRuntime;
use std::string::String;

// A text a line, each of which is also cut at each of its bytes.
const TEXTS: &str = r#"{"a":[1,-2,null,0],"b":"text","c":{"d":true,"e":false,"f":null},"a":[3]}
 [ 0 , 10 , -10 , 2147483647 , -2147483647 , 2147483648 , -2147483648 , null ] 
[9007199254740991,-9007199254740991,9223372036854775807,18446744073709551615,18446744073709551616]
[0.5,-0,-0.0,1e5,1E-5,1e999,-1e999,12345678901234567890123456789012345678901234567890]
[1,2,3,"four",5] 
[1,2,[3,[4,null]],{"5":6}]
["\"\\\/\b\f\n\r\t","\u00e9","\ud83d\ude00","\ud83d","\ude00\ud83d"]
{"":0,"é":1,"\u00e9":2,"a":{"a":{"a":[]}}}
[01] [1] , ] } { "a" } { "a" : } [1,] [,1] [-] [1.] [.5] [+1] [1e] nul tru falsee
[[[[[[[[[[[[[[[[[[[[[[[[[[[[[[[[[[[[[[[[[[[[[[[[[[[[[[[[[[[[[[[[[[[[[[[[[[[[[[[[[[[[[[[[[[[[[[[[[[[[[[[[[[[[[[[[[[[[[[[[[[[[[[[0]]]]]]]]]]]]]]]]]]]]]]]]]]]]]]]]]]]]]]]]]]]]]]]]]]]]]]]]]]]]]]]]]]]]]]]]]]]]]]]]]]]]]]]]]]]]]]]]]]]]]]]]]]]]]]]]]]]]]]]]]]]]]]]
[[[[[[[[[[[[[[[[[[[[[[[[[[[[[[[[[[[[[[[[[[[[[[[[[[[[[[[[[[[[[[[[[[[[[[[[[[[[[[[[[[[[[[[[[[[[[[[[[[[[[[[[[[[[[[[[[[[[[[[[[[[[[[[[0]]]]]]]]]]]]]]]]]]]]]]]]]]]]]]]]]]]]]]]]]]]]]]]]]]]]]]]]]]]]]]]]]]]]]]]]]]]]]]]]]]]]]]]]]]]]]]]]]]]]]]]]]]]]]]]]]]]]]]]]]]]]]]]]"#;

// What random texts are made of, a word a line: items of lists, and what goes wrong between them.
const WORDS: &str = r#"0
7
-1
12
null
2147483647
-2147483648
-0
1e5
0.25
1e999
true
"a"
"\n"
"\ud800"
[]
[1,null]
{}
{"a":1,"a":2}
 3 
01
nul
]
[
,
}
"
-"#;

fn is_sample(sample: Option<i64>, value: &Value) -> bool {
    match sample {
        Some(number) => match value.as_number() {
            Some(other) => *other == Number::from(number),
            None => false,
        },
        None => value.is_null(),
    }
}

fn are_samples(samples: &Samples, values: &Vec<Value>) -> bool {
    if samples.len() != values.len() {
        return false;
    }
    for place in 0..samples.len() {
        if !is_sample(samples.get(place), &values[place]) {
            return false;
        }
    }
    true
}

// Whether two trees are alike, but for what stands in them, which is put to the others.
fn look<'a>(
    tree: &'a Tree,
    value: &'a Value,
    pairs: &mut Vec<(&'a Tree, &'a Value)>,
) -> Result<bool, AllocError> {
    match (tree, value) {
        (Tree::Null, Value::Null) => Ok(true),
        (Tree::Bool(one), Value::Bool(other)) => Ok(*one == *other),
        (Tree::Number(one), Value::Number(other)) => Ok(*one == *other),
        (Tree::Text(one), Value::String(other)) => Ok(one.as_str() == other.as_str()),
        (Tree::Samples(samples), Value::Array(values)) => Ok(are_samples(samples, values)),
        (Tree::Items(items), Value::Array(values)) => {
            for (item, value) in items.iter().zip(values.iter()) {
                pairs.push((item, value))?;
            }
            Ok(items.len() == values.len())
        }
        (Tree::Object(members), Value::Object(others)) => {
            for (name, member) in members.iter() {
                if let Some(other) = others.get(name.as_str()) {
                    pairs.push((member, other))?;
                }
            }
            Ok(members.len() == others.len())
        }
        _ => Ok(false),
    }
}

fn are_same(alloc: Global, tree: &Tree, value: &Value) -> Result<bool, AllocError> {
    let mut pairs = Vec::new(alloc);
    pairs.push((tree, value))?;
    for _ in 0..u64::MAX {
        let Some((tree, value)) = pairs.pop() else {
            return Ok(true);
        };
        if !look(tree, value, &mut pairs)? {
            return Ok(false);
        }
    }
    Ok(false)
}

// Whether a text is read to the same data, or by neither.
fn is_read_alike(alloc: Global, text: &[u8]) -> bool {
    match (read_tree(alloc, text), Value::from_slice(alloc, text)) {
        (Ok(tree), Ok(value)) => are_same(alloc, &tree, &value).unwrap_or(false),
        (Err(JsonFault::NotJson), Err(_)) => true,
        _ => false,
    }
}

// The first line that isn't read alike, whole or cut; none is empty.
fn first_apart(alloc: Global) -> &'static str {
    for line in TEXTS.lines() {
        let bytes = line.as_bytes();
        for end in 0..=bytes.len() {
            if !is_read_alike(alloc, &bytes[..end]) {
                return line;
            }
        }
    }
    ""
}

fn random_word(seed: &mut u64) -> &'static str {
    *seed = seed
        .wrapping_mul(6_364_136_223_846_793_005)
        .wrapping_add(1_442_695_040_888_963_407);
    WORDS.lines().nth((*seed >> 33) as usize % 28).unwrap_or("")
}

// A list of so many words at random.
fn random_list(alloc: Global, seed: &mut u64, count: usize) -> Result<String, AllocError> {
    let mut text = String::from_str(alloc, "[")?;
    for place in 0..count {
        if place > 0 {
            text.push_str(",")?;
        }
        text.push_str(random_word(seed))?;
    }
    text.push_str("]")?;
    Ok(text)
}

// The first list at random that isn't read alike; none is empty.
fn first_list_apart(alloc: Global) -> Result<String, AllocError> {
    let mut seed = 20_260_101;
    for number in 0..10_000 {
        let text = random_list(alloc, &mut seed, number % 6)?;
        if !is_read_alike(alloc, text.as_str().as_bytes()) {
            return Ok(text);
        }
    }
    String::from_str(alloc, "")
}

#[test]
fn trees_are_those_of_the_library(rt: HostRuntime) {
    assert_eq!(rt; first_apart(rt.alloc()), "");
    assert!(rt; first_list_apart(rt.alloc()).is_ok_and(|text| text.as_str() == ""));
}
