//! The first lines of a page, written by page/make.

use nv_lines::Message;

/// Appends what stands before the style.
pub fn push_head(out: &mut Message) {
    out.put(HEAD)
}

const HEAD: &str = r#"<!DOCTYPE html>
<html lang="en">
<head>
<meta charset="utf-8">
<meta name="viewport" content="width=device-width, initial-scale=1">
<meta name="color-scheme" content="light dark">
<title>Nova</title>
<script>document.documentElement.className = 'shown';</script>
<style>
"#;
