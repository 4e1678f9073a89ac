//! What reads the script of a page, written by page/make.

use nv_lines::Message;

/// Appends what stands behind the script.
pub fn push_end(out: &mut Message) {
    out.put(END)
}

const END: &str = r#"</script>
<script>
{
const lines = document.getElementById('packed').textContent.trim().split('\n'), named = lines.splice(0, Number(lines.shift())), ends = '!$%()*+,-./0123456789:;=>?@ABCDEFGHIJKLMNOPQRSTUVWXYZ[]^_`abcdefghijklmnopqrstuvwxyz{|}~', full = {};
const grown = text => text.replace(/[@JQ]./g, it => (full[it] = full[it] || grown(named['@JQ'.indexOf(it[0]) * ends.length + ends.indexOf(it[1])])));
document.documentElement.classList.add('ready');
document.body.append(Object.assign(document.createElement('script'), { textContent: grown(lines.join('\n')) }));
}
</script>
</body>
</html>
"#;
