//! Findings in the Static Analysis Results Interchange Format, version 2.1.0.
ghost use Rattle.std.specs.Prelude.{◌≡◌, length, IfOk};

use nova_show::page_of;
use nv_base::NoMemory;
use percent_encoding::{AsciiSet, NON_ALPHANUMERIC, ascii_set, percent_encode};
use serde_json::{Value, json};
use std::alloc::{AllocError, Global};

// The bytes that an address of a file spells by `%`.
const ESCAPED: AsciiSet = ascii_set!(
    NON_ALPHANUMERIC
        .remove(b'/')
        .remove(b'-')
        .remove(b'.')
        .remove(b'_')
        .remove(b'~')
);

const SCHEMA: &str =
    "https://docs.oasis-open.org/sarif/sarif/v2.1.0/errata01/os/schemas/sarif-schema-2.1.0.json";

/// The log of findings, each of which is a line with an object, as `--json` prints it. Other lines are passed over.
pub fn sarif_log(alloc: Global, lines: &[u8]) -> Result<Vec<u8>, NoMemory> {
    let findings = findings_of(alloc, lines)?;
    let log = log_of(alloc, &findings);
    drop(findings);
    let log = log?;
    let text = log.to_vec(alloc);
    drop(log);
    let mut text = text?;
    text.push(b'\n')?;
    Ok(text)
}

// The objects of lines.
fn findings_of(alloc: Global, lines: &[u8]) -> Result<Vec<Value>, NoMemory> {
    let mut findings = Vec::new(alloc);
    for line in lines.split(|byte| *byte == b'\n') {
        if line.starts_with(b"{") {
            add_finding(alloc, &mut findings, line)?;
        }
    }
    Ok(findings)
}

fn add_finding(alloc: Global, findings: &mut Vec<Value>, line: &[u8]) -> Result<(), NoMemory> {
    match Value::from_slice(alloc, line) {
        Ok(finding) => Ok(findings.push(finding)?),
        Err(_) => Err(NoMemory),
    }
}

// A log of one run, with a rule for each code and a result for each finding.
fn log_of(alloc: Global, findings: &[Value]) -> Result<Value, AllocError> {
    let driver = driver_of(alloc, findings)?;
    let results = results_of(alloc, findings)?;
    let run =
        json!(in alloc; {"tool": {"driver": driver}, "columnKind": "utf16CodeUnits", "results": results})?;
    json!(in alloc; {"$schema": SCHEMA, "version": "2.1.0", "runs": [run]})
}

fn driver_of(alloc: Global, findings: &[Value]) -> Result<Value, AllocError> {
    let rules = rules_of(alloc, findings)?;
    json!(in alloc; {"name": "nova", "version": "1.0", "rules": rules})
}

// A rule for each code, in the order in which the findings first have them.
fn rules_of(alloc: Global, findings: &[Value]) -> Result<Vec<Value>, AllocError> {
    let mut rules = Vec::new(alloc);
    for n in 0..findings.len() {
        if let Some(code) = code_of(&findings[n]) {
            if !has_code(&findings[..n], code) {
                rules.push(rule_of(alloc, code, &findings[n])?)?;
            }
        }
    }
    Ok(rules)
}

fn has_code(findings: &[Value], code: &str) -> bool {
    for finding in findings {
        if code_of(finding) == Some(code) {
            return true;
        }
    }
    false
}

// With the page of `nova explain`, if there is one.
fn rule_of(alloc: Global, code: &str, finding: &Value) -> Result<Value, AllocError> {
    let level = text(finding, "severity");
    let page = page_of(code.as_bytes()).unwrap_or("There is no page on it.");
    json!(in alloc; {"id": code, "defaultConfiguration": {"level": level}, "help": {"text": page}})
}

// A result for each finding.
fn results_of(alloc: Global, findings: &[Value]) -> Result<Vec<Value>, AllocError>
    ensures { IfOk result (λ results. length results.items ≡ length findings.now) }
{
    let mut results = Vec::new(alloc);
    for finding in findings {
        results.push(result_of(alloc, finding)?)?;
    }
    Ok(results)
}

fn result_of(alloc: Global, finding: &Value) -> Result<Value, AllocError> {
    let level = text(finding, "severity");
    let message = message_of(alloc, finding)?;
    let places = places_of(alloc, finding)?;
    match code_of(finding) {
        Some(code) => {
            json!(in alloc; {"ruleId": code, "level": level, "message": {"text": message}, "locations": places})
        }
        None => {
            json!(in alloc; {"level": level, "message": {"text": message}, "locations": places})
        }
    }
}

// A sentence, and what helps.
fn message_of(alloc: Global, finding: &Value) -> Result<String, AllocError> {
    let title = text(finding, "message");
    let help = text(finding, "help");
    if help.is_empty() {
        title.to_string(alloc)
    } else {
        format!(in alloc; "{title}\n{help}")
    }
}

// None where the words of the command are at fault.
fn places_of(alloc: Global, finding: &Value) -> Result<Vec<Value>, AllocError> {
    let mut places = Vec::new(alloc);
    let name = text(finding, "file");
    if name != "nova" {
        places.push(place_of(alloc, name, finding)?)?;
    }
    Ok(places)
}

fn place_of(alloc: Global, name: &str, finding: &Value) -> Result<Value, AllocError> {
    let address = address_of(alloc, name)?;
    if finding.get("line").is_none() {
        return json!(in alloc; {"physicalLocation": {"artifactLocation": {"uri": address}}});
    }
    let region = region_of(alloc, finding)?;
    json!(in alloc; {"physicalLocation": {"artifactLocation": {"uri": address}, "region": region}})
}

fn region_of(alloc: Global, finding: &Value) -> Result<Value, AllocError> {
    let line = number(finding, "line");
    let column = number(finding, "column");
    let end_line = number(finding, "end_line");
    let end_column = number(finding, "end_column");
    json!(in alloc; {"startLine": line, "startColumn": column, "endLine": end_line, "endColumn": end_column})
}

// The address of a file: relative where its path is.
fn address_of(alloc: Global, name: &str) -> Result<String, AllocError> {
    let mut address = String::new(alloc);
    let path = if name == "-" { "/dev/stdin" } else { name };
    if path.starts_with('/') {
        address.push_str("file://")?;
    }
    percent_encode(path.as_bytes(), ESCAPED).append_to(&mut address)?;
    Ok(address)
}

fn code_of(finding: &Value) -> Option<&str> {
    finding.get("code").and_then(Value::as_str)
}

fn number(finding: &Value, name: &str) -> u64 {
    finding.get(name).and_then(Value::as_u64).unwrap_or(1)
}

fn text<'v>(finding: &'v Value, name: &str) -> &'v str {
    finding.get(name).and_then(Value::as_str).unwrap_or("")
}
